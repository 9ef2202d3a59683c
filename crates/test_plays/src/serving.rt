//! Packets that are given to a server of the tally.
use crate::calls::put_carried;
use crate::digest::digest_of;
use crate::draft::{SEQUENCE, has_header, number_at, packet_of, put_number, read_body, read_hex};
use crate::items::put_items;
use crate::lines::{Lines, Told};
use crate::steps::counted;
use crate::telling::{add_digest, add_fault, put_packet, put_total};
use courier_calls::{Tally, tally_table};
use item_world::{Setup, Side};
use std::alloc::{AllocError, Global};
use xns_spp::Bytes;
use xns_world::{ServeTrace, serve_bytes};

/// How many replies are told; of more only the digest and the last two are.
const MOST_REPLIES: usize = 44;

/// Adds the packets of a group.
fn push_group(alloc: Global, packets: &mut Vec<Bytes>, group: &str) -> Result<(), AllocError> {
    match group.strip_prefix("whole ") {
        Some(digits) => push(packets, Bytes::new(read_hex(alloc, digits)?)),
        None => push_drafts(alloc, packets, group),
    }
}

fn push(packets: &mut Vec<Bytes>, packet: Bytes) -> Result<(), AllocError> {
    packets.push(packet)?;
    Ok(())
}

/// Adds the packets that a group has of one body, where that is not too short.
fn push_drafts(alloc: Global, packets: &mut Vec<Bytes>, group: &str) -> Result<(), AllocError> {
    let (count, words) = counted(group);
    let mut body = read_body(alloc, words)?;
    if has_header(&body) {
        push_numbered(alloc, packets, &mut body, count)?;
    }
    Ok(())
}

/// Adds so many packets with this body, each with the next sequence number.
fn push_numbered(
    alloc: Global,
    packets: &mut Vec<Bytes>,
    body: &mut [u8],
    count: u16,
) -> Result<(), AllocError> {
    let first = number_at(body, SEQUENCE);
    for number in 0..count {
        put_number(body, SEQUENCE, first.wrapping_add(number));
        packets.push(packet_of(alloc, body)?)?;
    }
    Ok(())
}

/// How many packets the server sent, with the digest of many, and the packets: all, or the last two of many.
fn put_replies(lines: &mut Lines, replies: &[Bytes]) {
    lines.add_number("replies ", replies.len());
    if replies.len() > MOST_REPLIES {
        add_digest(lines, digest_of(replies));
        lines.end();
        put_told(lines, &replies[replies.len() - 2..]);
        return;
    }
    lines.end();
    put_told(lines, replies);
}

fn put_told(lines: &mut Lines, replies: &[Bytes]) {
    for reply in replies {
        put_packet(lines, "reply", Side::B, reply.as_slice());
    }
}

fn put_trace(lines: &mut Lines, trace: &ServeTrace<Tally>) {
    put_items(lines, "handed", &trace.handed);
    put_carried(lines, trace.carried.as_slice());
    lines.add("fault ");
    add_fault(lines, &trace.fault);
    lines.end();
    put_replies(lines, trace.replies.as_slice());
    put_total(lines, &trace.service);
}

/// What a new server of the tally makes of the packets; `None` where there are no such ends.
pub fn serve(
    alloc: Global,
    setup: &Setup,
    packets: &[Bytes],
) -> Result<Option<ServeTrace<Tally>>, AllocError> {
    if !setup.is_good() {
        return Ok(None);
    }
    let table = tally_table(alloc)?;
    let trace = serve_bytes(alloc, setup, &table, Tally::new(), packets)?;
    Ok(Some(trace))
}

fn read_packets(alloc: Global, steps: &str) -> Result<Vec<Bytes>, AllocError> {
    let mut packets = Vec::new(alloc);
    for group in steps.split(", ") {
        push_group(alloc, &mut packets, group)?;
    }
    Ok(packets)
}

/// Tells what a server makes of the packets: the items handed up, the calls that it decided, its session's fault, the packets that it sent,
/// and the total.
pub fn play(alloc: Global, lines: &mut Lines, setup: &Setup, steps: &str) -> Told {
    let packets = read_packets(alloc, steps)?;
    match serve(alloc, setup, &packets)? {
        Some(trace) => put_trace(lines, &trace),
        None => lines.put("no such ends"),
    }
    Ok(())
}
