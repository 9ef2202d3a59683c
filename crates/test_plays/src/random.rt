//! Packets from a generator that are given to a server of the tally.
use crate::damage::damaged;
use crate::digest::digest_of;
use crate::draft::{ACKNOWLEDGE, ALLOCATION, SEQUENCE, packet_of, put_number};
use crate::generator::Generator;
use crate::lines::{Lines, Told};
use crate::serving::serve;
use crate::setting::read_numbers;
use crate::telling::{add_digest, add_fault, put_total};
use courier_calls::Tally;
use item_world::Setup;
use std::alloc::{AllocError, Global};
use xns_idp::{MOST_PACKET, decode};
use xns_spp::{Bytes, Header, read_header};
use xns_world::ServeTrace;

/// How many packets are made before the program looks again at what the server has made of all of them.
const BLOCK: u16 = 8;

/// How much the total of a tally is at most.
const MOST_TOTAL: u32 = 1_000_000;

/// The header of a packet that the server sent.
fn header_of(reply: &Bytes) -> Option<Header> {
    let (packet, _) = decode(reply.as_slice()).ok()?;
    let (header, _) = read_header(packet.body).ok()?;
    Some(header)
}

/// How many items the server has sent.
fn sent_items(replies: &[Bytes]) -> u16 {
    let mut sent = 0;
    for reply in replies {
        if let Some(header) = header_of(reply) {
            if header.control & 128 == 0 {
                sent = header.sequence.saturating_add(1).max(sent);
            }
        }
    }
    sent
}

/// Whether the trace is within its bounds: there is no more of anything than what it comes of, every packet that was sent can be read
/// and none is too long.
fn is_within(trace: &ServeTrace<Tally>, packets: usize) -> bool {
    let handed = trace.handed.as_slice().len();
    let carried = trace.carried.len();
    let replies = trace.replies.as_slice();
    let most_replies = packets.saturating_add(carried).saturating_add(1);
    let whole = replies.iter().all(|reply| reply.as_slice().len() <= MOST_PACKET
        && header_of(reply).is_some());
    handed <= packets
        && carried <= handed
        && replies.len() <= most_replies
        && whole
        && trace.service.total() <= MOST_TOTAL
}

/// The body of a caller's first packet, which has its versions, before it is numbered.
const VERSIONS: [u8; 16] = [
    0x50, 0, 0x12, 0x34, 0x56, 0x78, 0, 0, 0, 0, 0, 0, 0, 3, 0, 3,
];

/// The body of a packet with a call Add of 0.
const ADD: [u8; 26] = [
    0x50, 0, 0x12, 0x34, 0x56, 0x78, 0, 0, 0, 0, 0, 0, 0, 0, 0, 0, 0, 0, 0, 7, 0, 2, 0, 1, 0, 0,
];

/// Where the transaction of the call begins.
const TRANSACTION: usize = 14;

/// Where the number begins that the call adds.
const ADDED: usize = 24;

/// The body of an honest caller's packet with this sequence number: the versions, or a call Add.
fn honest_body(
    alloc: Global,
    generator: &mut Generator,
    sequence: u16,
    acknowledge: u16,
) -> Result<Vec<u8>, AllocError> {
    let mut body = if sequence == 0 {
        VERSIONS.to_vec(alloc)?
    } else {
        let mut call = ADD.to_vec(alloc)?;
        put_number(&mut call, TRANSACTION, sequence);
        put_number(&mut call, ADDED, generator.below(1000));
        call
    };
    put_number(&mut body, SEQUENCE, sequence);
    put_number(&mut body, ACKNOWLEDGE, acknowledge);
    put_number(&mut body, ALLOCATION, acknowledge.wrapping_add(63));
    Ok(body)
}

/// The packet with this body, or one in eight times a changed one.
fn some_packet(
    alloc: Global,
    generator: &mut Generator,
    body: Vec<u8>,
) -> Result<Bytes, AllocError> {
    if generator.below(8) == 0 {
        damaged(alloc, generator, body)
    } else {
        packet_of(alloc, &body)
    }
}

/// The next packets of an honest caller, some of them changed.
fn push_block(
    alloc: Global,
    generator: &mut Generator,
    trace: &ServeTrace<Tally>,
    packets: &mut Vec<Bytes>,
) -> Result<(), AllocError> {
    let first = u16::try_from(trace.handed.as_slice().len()).unwrap_or(0);
    let acknowledge = sent_items(trace.replies.as_slice());
    for place in 0..BLOCK {
        let body = honest_body(alloc, generator, first.wrapping_add(place), acknowledge)?;
        packets.push(some_packet(alloc, generator, body)?)?;
    }
    Ok(())
}

fn put_trace(lines: &mut Lines, trace: &ServeTrace<Tally>, packets: usize) {
    lines.add_number("packets ", packets);
    lines.add_number(" handed ", trace.handed.as_slice().len());
    lines.add_number(" carried ", trace.carried.len());
    lines.add(" fault ");
    add_fault(lines, &trace.fault);
    lines.add_number(" replies ", trace.replies.len());
    add_digest(lines, digest_of(&trace.replies));
    lines.add(" ");
    put_total(lines, &trace.service);
}

/// What a server makes of the packets; `None` where there are no such ends, and where the trace is out of bounds.
fn serve_within(
    alloc: Global,
    setup: &Setup,
    packets: &[Bytes],
) -> Result<Option<ServeTrace<Tally>>, AllocError> {
    match serve(alloc, setup, packets)? {
        Some(trace) if is_within(&trace, packets.len()) => Ok(Some(trace)),
        _ => Ok(None),
    }
}

/// Gives a server the packets, and adds a block that is made by its replies; `false` where `serve_within` has no trace.
fn push_next(
    alloc: Global,
    setup: &Setup,
    generator: &mut Generator,
    packets: &mut Vec<Bytes>,
) -> Result<bool, AllocError> {
    let Some(trace) = serve_within(alloc, setup, packets)? else {
        return Ok(false);
    };
    push_block(alloc, generator, &trace, packets)?;
    Ok(true)
}

/// The packets of so many blocks, or of fewer where the server has no trace of them.
fn blocks_of(
    alloc: Global,
    setup: &Setup,
    seed: u16,
    blocks: u16,
) -> Result<Vec<Bytes>, AllocError> {
    let mut generator = Generator::new(u64::from(seed));
    let mut packets = Vec::new(alloc);
    for _ in 0..blocks {
        if !push_next(alloc, setup, &mut generator, &mut packets)? {
            break;
        }
    }
    Ok(packets)
}

/// Gives a server one block of packets after another, each made by its replies to those before, and looks after each whether its
/// trace is within its bounds.
pub fn play(alloc: Global, lines: &mut Lines, setup: &Setup, steps: &str) -> Told {
    let Some((seed, blocks)) = read_numbers(steps) else {
        lines.put("no seed");
        return Ok(());
    };
    let packets = blocks_of(alloc, setup, seed, blocks)?;
    put_served(alloc, lines, setup, &packets)
}

/// Tells what a server makes of the packets.
fn put_served(alloc: Global, lines: &mut Lines, setup: &Setup, packets: &[Bytes]) -> Told {
    match serve_within(alloc, setup, packets)? {
        Some(trace) => put_trace(lines, &trace, packets.len()),
        None => {
            lines.add_number("no such ends, or out of bounds after ", packets.len());
            lines.put(" packets");
        }
    }
    Ok(())
}
