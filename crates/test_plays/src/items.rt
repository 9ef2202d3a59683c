//! Plays of items.
use crate::digest::with_bytes;
use crate::draft::read_hex;
use crate::lines::{Lines, Told};
use crate::steps::unfold;
use crate::telling::{add_digest, put_item, put_packet};
use item_world::{Bag, Event, ItemTrace, Items, Setup, Side, play_items};
use std::alloc::{AllocError, Global};
use xns_script::{Command, read_command};
use xns_spp::{Bytes, Item};

/// How many packets of a play are told; of more only the number and the digest are.
const MOST_PACKETS: usize = 40;

fn side(word: &str) -> Side {
    match word {
        "a" => Side::A,
        _ => Side::B,
    }
}

/// The datastream of this number; 0 where it is none.
fn read_stream(number: &str) -> u8 {
    let number = number.parse::<u16>().unwrap_or(0);
    u8::try_from(number).unwrap_or(0)
}

/// An item of the words: its bytes, and what is special of it. It ends a message and is of datastream 0 where the words say nothing else.
fn item(alloc: Global, words: &str) -> Result<Item, AllocError> {
    let mut item = Item {
        stream: 0,
        attention: false,
        last: true,
        body: Bytes::new(Vec::new(alloc)),
    };
    for word in words.split(" ") {
        read_word(alloc, &mut item, word)?;
    }
    Ok(item)
}

/// Gives the item what a word says.
fn read_word(alloc: Global, item: &mut Item, word: &str) -> Result<(), AllocError> {
    match word {
        "attention" => item.attention = true,
        "part" => item.last = false,
        _ => match word.strip_prefix("stream=") {
            Some(number) => item.stream = read_stream(number),
            None => item.body = Bytes::new(read_hex(alloc, word)?),
        },
    }
    Ok(())
}

/// Adds what a step does. Nothing where it says nothing.
fn push_event(alloc: Global, events: &mut Vec<Event>, step: &str) -> Result<(), AllocError> {
    match step.split_once(" ") {
        Some(("send", words)) => push_send(alloc, events, words),
        Some(("take", word)) => push(events, Event::Take(side(word))),
        _ => push_command(alloc, events, step),
    }
}

fn push(events: &mut Vec<Event>, event: Event) -> Result<(), AllocError> {
    events.push(event)?;
    Ok(())
}

/// Adds that a side sends an item.
fn push_send(alloc: Global, events: &mut Vec<Event>, words: &str) -> Result<(), AllocError> {
    let (word, rest) = words.split_once(" ").unwrap_or((words, ""));
    let item = item(alloc, rest)?;
    push(events, Event::Send(side(word), item))
}

/// Adds what happens at a line of a simulation.
fn push_command(alloc: Global, events: &mut Vec<Event>, step: &str) -> Result<(), AllocError> {
    match read_command(alloc, step.as_bytes())? {
        Some(Command::Happen(event)) => push(events, event),
        _ => Ok(()),
    }
}

/// The events of the steps.
fn read_events(alloc: Global, steps: &str) -> Result<Vec<Event>, AllocError> {
    let mut events = Vec::new(alloc);
    let steps = unfold(alloc, steps)?;
    for step in steps.as_slice() {
        push_event(alloc, &mut events, step)?;
    }
    Ok(events)
}

pub fn put_items(lines: &mut Lines, who: &str, items: &Items) {
    for item in items.as_slice() {
        put_item(lines, who, item);
    }
}

fn name(side: Side) -> &'static str {
    match side {
        Side::A => "a",
        Side::B => "b",
    }
}

/// The digest of packets with their senders' names.
fn digest_of(packets: &[(Side, Bytes)]) -> u32 {
    let mut digest = 0;
    for (side, bytes) in packets {
        digest = with_bytes(digest, name(*side).as_bytes());
        digest = with_bytes(digest, bytes.as_slice());
    }
    digest
}

/// How many packets were sent, and the packets, or the digest of them with their senders' names.
pub fn put_bag(lines: &mut Lines, bag: &Bag) {
    let packets = bag.as_slice();
    lines.add_number("packets ", packets.len());
    if packets.len() > MOST_PACKETS {
        add_digest(lines, digest_of(packets));
        lines.end();
    } else {
        lines.end();
        put_packets(lines, packets);
    }
}

fn put_packets(lines: &mut Lines, packets: &[(Side, Bytes)]) {
    for (side, bytes) in packets {
        put_packet(lines, name(*side), *side, bytes.as_slice());
    }
}

fn put_trace(lines: &mut Lines, trace: &ItemTrace) {
    put_items(lines, "a sent", &trace.a_sent);
    put_items(lines, "b sent", &trace.b_sent);
    put_items(lines, "a handed", &trace.a_handed);
    put_items(lines, "b handed", &trace.b_handed);
    put_bag(lines, &trace.bag);
}

/// Tells what comes of the steps: the items that were accepted and handed up, and the packets.
pub fn play(alloc: Global, lines: &mut Lines, setup: &Setup, steps: &str) -> Told {
    if !setup.is_good() {
        lines.put("no such ends");
        return Ok(());
    }
    let trace = play_items(alloc, setup, read_events(alloc, steps)?.as_slice())?;
    put_trace(lines, &trace);
    Ok(())
}
