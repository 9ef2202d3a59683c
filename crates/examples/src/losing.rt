//! Two connections, and a network that loses packets, delivers packets twice, and the last one first.

use crate::hosts::{CALLER, LISTED, SERVER};
use courier_sessions::Answer;
use host_world::{Pair, Station};
use item_world::Side;
use std::alloc::{AllocError, Global};
use xns_host::{Call, Settings};
use xns_spp::Bytes;

/// Makes two connections, and lets them meet.
pub fn talk(rt: &HostRuntime) -> Result<(), anyhow::Error> {
    let alloc = rt.alloc();
    let settings = Settings::default();
    settings.check()?;
    let terms = settings.terms();
    let calls = Station {
        address: CALLER,
        id: 0x1234,
        terms,
    };
    let called = Station {
        address: SERVER,
        id: 0x5678,
        terms,
    };
    let programs = vec![in alloc; LISTED]?;
    let mut pairs = Vec::new(alloc);
    pairs.push(Pair::new(alloc, &calls, &called, programs, 0)?)?;
    for pair in pairs.iter_mut() {
        converse(rt, pair)?;
    }
    Ok(())
}

/// Makes two calls one after the other, and prints their answers.
fn converse(rt: &HostRuntime, pair: &mut Pair) -> Result<(), anyhow::Error> {
    call(rt, pair, 0, &[1, 2, 3])?;
    meet(rt, pair, 0)?;
    call(rt, pair, 10_000, &[4, 5])?;
    meet(rt, pair, 10_000)
}

/// Calls procedure 1 of the service.
fn call(rt: &HostRuntime, pair: &mut Pair, now: u64, words: &[u16]) -> Result<(), anyhow::Error> {
    let call = Call {
        program: LISTED.number,
        version: LISTED.lowest,
        procedure: 1,
        words,
    };
    pair.call(rt.alloc(), now, Side::A, &call)?;
    Ok(())
}

/// The network loses what goes out first, and carries the rest. Each call is answered by its own words.
fn meet(rt: &HostRuntime, pair: &mut Pair, start: u64) -> Result<(), anyhow::Error> {
    let alloc = rt.alloc();
    let _lost = packets(alloc, pair, start, Side::A)?;
    let mut now = start;
    for _ in 0..8 {
        now = now.saturating_add(250);
        pair.act(now, Side::A);
        carry(alloc, pair, now, Side::A)?;
        answer(rt, pair, now)?;
        carry(alloc, pair, now, Side::B)?;
        hear(rt, pair, now)?;
    }
    Ok(())
}

/// The packets that go out at this side.
fn packets(alloc: Global, pair: &mut Pair, now: u64, side: Side) -> Result<Vec<Bytes>, AllocError> {
    let mut packets = Vec::new(alloc);
    for _ in 0..40 {
        let Some(packet) = pair.next_packet(alloc, now, side)? else {
            break;
        };
        packets.push(packet)?;
    }
    Ok(packets)
}

/// The packets of this side come to the other: the last one first, each of them twice.
fn carry(alloc: Global, pair: &mut Pair, now: u64, from: Side) -> Result<(), AllocError> {
    let packets = packets(alloc, pair, now, from)?;
    for packet in packets.iter().rev() {
        pair.receive(alloc, now, from.other(), packet.as_slice())?;
        pair.receive(alloc, now, from.other(), packet.as_slice())?;
    }
    Ok(())
}

/// Answers a call by its own words.
fn answer(rt: &HostRuntime, pair: &mut Pair, now: u64) -> Result<(), anyhow::Error> {
    let alloc = rt.alloc();
    let Some(message) = pair.take_message(alloc, now, Side::B) else {
        return Ok(());
    };
    let words = message.words(alloc)?;
    println!(rt; "called with {} words", message.word_count())?;
    pair.answer(alloc, now, Side::B, Answer::Return, words.as_slice())?;
    Ok(())
}

/// Prints an answer.
fn hear(rt: &HostRuntime, pair: &mut Pair, now: u64) -> Result<(), anyhow::Error> {
    if let Some(message) = pair.take_message(rt.alloc(), now, Side::A) {
        println!(rt; "answered by {} words", message.word_count())?;
    }
    Ok(())
}
