//! Items, calls, outcomes and packets as text.
use crate::lines::Lines;
use courier_calls::{Arguments, Call, Seen, Tally};
use courier_messages::{MessageFault, SessionFault};
use courier_types::Value;
use item_world::Side;
use test_setting::{CALLER, SERVER};
use xns_idp::{Address, decode, packet_type};
use xns_spp::{Dropped, Header, Item, read_header};

/// More bytes or words are told by their number.
const MOST_SHOWN: usize = 40;

/// Adds bytes in hex, `-` for none, and many by their number.
fn add_bytes(lines: &mut Lines, bytes: &[u8]) {
    match bytes.len() {
        0 => lines.add("-"),
        1..=MOST_SHOWN => lines.add_hex(bytes),
        count => lines.add_number("=", count),
    }
}

/// Adds words in hex, parted by spaces; `-` for none, and many by their number.
fn add_words(lines: &mut Lines, words: &[u16]) {
    match words.len() {
        0 => lines.add("-"),
        1..=MOST_SHOWN => add_parted(lines, words),
        count => lines.add_number("=", count),
    }
}

fn add_parted(lines: &mut Lines, words: &[u16]) {
    let mut space = "";
    for word in words {
        lines.add(space);
        lines.add_hex(&word.to_be_bytes());
        space = " ";
    }
}

/// Adds the digest of packets.
pub fn add_digest(lines: &mut Lines, digest: u32) {
    lines.add(" digest ");
    lines.add_hex(&digest.to_be_bytes());
}

/// An item: its body, with what is special of it.
pub fn put_item(lines: &mut Lines, who: &str, item: &Item) {
    let marks = match (item.attention, item.last) {
        (true, true) => " attention last ",
        (true, false) => " attention ",
        (false, true) => " last ",
        (false, false) => " ",
    };
    lines.add(who);
    lines.add_number(" ", usize::from(item.stream));
    lines.add(marks);
    add_bytes(lines, item.body.as_slice());
    lines.end();
}

/// A call, whose arguments are words.
pub fn put_call(lines: &mut Lines, call: &Call) {
    lines.add_number("carried ", call.program as usize);
    lines.add_number(" ", usize::from(call.version));
    lines.add_number(" ", usize::from(call.procedure));
    lines.add(" ");
    match &call.arguments {
        Arguments::Raw(words) => add_words(lines, words.as_slice()),
        Arguments::Typed(_) => lines.add("typed"),
    }
    lines.end();
}

/// The number that a value of the tally's outcomes is.
fn number_of(value: &Value) -> usize {
    match value {
        Value::LongCardinal(number) => *number as usize,
        _ => u32::MAX as usize,
    }
}

pub fn put_seen(lines: &mut Lines, seen: &Seen) {
    match seen {
        Seen::Returned(value) => lines.add_number("returned ", number_of(value)),
        Seen::Aborted(error, value) => {
            lines.add_number("aborted ", usize::from(*error));
            lines.add_number(" ", number_of(value));
        }
        Seen::Rejected(reason, words) => {
            lines.add_number("rejected ", usize::from(*reason));
            lines.add(" ");
            add_words(lines, words.as_slice());
        }
    }
    lines.end();
}

pub fn put_total(lines: &mut Lines, tally: &Tally) {
    lines.add_number("total ", tally.total() as usize);
    lines.end();
}

/// The words of a header.
fn header_words(header: &Header) -> [u16; 6] {
    [
        u16::from_be_bytes([header.control, header.stream]),
        header.source_id,
        header.target_id,
        header.sequence,
        header.acknowledge,
        header.allocation,
    ]
}

fn add_header(lines: &mut Lines, header: &Header, data: &[u8]) {
    add_words(lines, &header_words(header));
    lines.add(" ");
    add_bytes(lines, data);
}

/// The header and data of a packet of the connection, where it is whole, has a sum and goes from this address to that.
fn read_between<'a>(
    bytes: &'a [u8],
    source: &Address,
    target: &Address,
) -> Option<(Header, &'a [u8])> {
    let (packet, taken) = decode(bytes).ok()?;
    let whole = packet.summed && packet.control == 0 && taken == bytes.len();
    let right = packet.source == *source && packet.target == *target;
    if whole && right && packet.kind == packet_type::SEQUENCED_PACKET {
        read_header(packet.body).ok()
    } else {
        None
    }
}

/// Adds a packet that a side sent: its header and data, or its bytes where it is none of the connection.
pub fn add_packet(lines: &mut Lines, side: Side, bytes: &[u8]) {
    let read = match side {
        Side::A => read_between(bytes, &CALLER, &SERVER),
        Side::B => read_between(bytes, &SERVER, &CALLER),
    };
    match read {
        Some((header, data)) => add_header(lines, &header, data),
        None => {
            lines.add("another packet ");
            add_bytes(lines, bytes);
        }
    }
}

/// A packet that a side sent.
pub fn put_packet(lines: &mut Lines, who: &str, side: Side, bytes: &[u8]) {
    lines.add(who);
    lines.add(" ");
    add_packet(lines, side, bytes);
    lines.end();
}

/// Why bytes are no message; of an unknown kind, which.
fn message_fault(fault: &MessageFault) -> (&'static str, Option<usize>) {
    match fault {
        MessageFault::OddLength => ("OddLength", None),
        MessageFault::ShortMessage => ("ShortMessage", None),
        MessageFault::UnknownKind { found } => ("UnknownKind", Some(usize::from(*found))),
        MessageFault::TooLong => ("TooLong", None),
    }
}

/// Why a session stopped; of an item of another datastream, which.
fn session_fault(fault: &SessionFault) -> (&'static str, Option<usize>) {
    match fault {
        SessionFault::NoCommonVersion => ("NoCommonVersion", None),
        SessionFault::BadVersions => ("BadVersions", None),
        SessionFault::BadMessage(fault) => message_fault(fault),
        SessionFault::WrongTransaction => ("WrongTransaction", None),
        SessionFault::BadReply => ("BadReply", None),
        SessionFault::Stream { kind } => ("Stream", Some(usize::from(*kind))),
        SessionFault::NoMemory => ("NoMemory", None),
        SessionFault::Failed => ("Failed", None),
    }
}

/// Adds why a session stopped.
pub fn add_fault(lines: &mut Lines, fault: &Option<SessionFault>) {
    let (name, number) = match fault {
        Some(fault) => session_fault(fault),
        None => ("none", None),
    };
    lines.add(name);
    if let Some(number) = number {
        lines.add_number(" ", number);
    }
}

pub fn dropped_text(dropped: &Option<Dropped>) -> &'static str {
    match dropped {
        None => "-",
        Some(Dropped::NotIdp) => "NotIdp",
        Some(Dropped::NotSpp) => "NotSpp",
        Some(Dropped::NotOurs) => "NotOurs",
        Some(Dropped::AheadOfUs) => "AheadOfUs",
        Some(Dropped::OutOfOrder) => "OutOfOrder",
        Some(Dropped::NoRoom) => "NoRoom",
        Some(Dropped::Repeat) => "Repeat",
    }
}
