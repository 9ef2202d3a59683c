//! Plays what its lines say, one play a line; the trace of each is text on lines of its own. It is run to be compared: with text that
//! was worked out elsewhere, as another compiler builds it, and where memory is refused.
//!
//! A line is a kind, the ends' window and backlog, and steps that commas part: `3* STEP; STEP` is two steps three times.
//!
//! - `items 4 16, STEP, ..` plays items: `tick a`, `deliver 0`, `rest`, `foreign a HEX`, `take a`, `send a HEX`; `send a stream=7
//!   attention part HEX` sends an item of another datastream, that asks for attention, and that does not end a message.
//! - `calls 4 16, STEP, ..` plays calls to a tally: the lines of a simulation.
//! - `serve 4 16, PACKET, ..` gives a server of the tally packets. A packet is a header and data in hex, `=534` for as many bytes of
//!   0, or `whole HEX`. In `245* PACKET` each has the next sequence number.
//! - `random 4 16, SEED BLOCKS` gives a server packets from a generator, eight a block.
//! - `responder 4 16, PACKET, STEP, ..` and `initiator` bring an end to a state by `send HEX`, `take`, `tick` and `get PACKET`, and have
//!   it receive the packet with one field changed, each time at a new end.
//!
//! All other lines come back as they are.
#![tactic(auto)]

mod calls;
mod damage;
mod digest;
mod draft;
mod generator;
mod items;
mod lines;
mod random;
mod receiving;
mod serving;
mod setting;
mod steps;
mod telling;

use item_world::Side;
use lines::Lines;
use std::alloc::{AllocError, Global};

fn main(rt: HostRuntime) -> Result<(), anyhow::Error> {
    for line in rt.lines(rt.alloc()) {
        tell(&rt, line?.as_str())?;
    }
    Ok(())
}

/// Prints what comes of a line.
fn tell(rt: &HostRuntime, line: &str) -> Result<(), anyhow::Error> {
    let mut lines = Lines::new(rt.alloc());
    let text = answer(rt.alloc(), &mut lines, line).unwrap_or("no memory\n");
    print!(rt; "{text}")?;
    Ok(())
}

/// What comes of a line, as whole lines.
fn answer<'a>(alloc: Global, lines: &'a mut Lines, line: &str) -> Result<&'a str, AllocError> {
    put_answer(alloc, lines, line)?;
    lines.text()
}

fn put_answer(alloc: Global, lines: &mut Lines, line: &str) -> Result<(), AllocError> {
    let (head, steps) = line.split_once(", ").unwrap_or((line, ""));
    let Some((kind, setup)) = setting::read_head(head) else {
        lines.put(line);
        return Ok(());
    };
    match kind {
        "items" => items::play(alloc, lines, &setup, steps),
        "calls" => calls::play(alloc, lines, &setup, steps),
        "serve" => serving::play(alloc, lines, &setup, steps),
        "random" => random::play(alloc, lines, &setup, steps),
        "responder" => receiving::play(alloc, lines, setup, Side::B, steps),
        "initiator" => receiving::play(alloc, lines, receiving::turned(setup), Side::A, steps),
        _ => {
            lines.put(line);
            Ok(())
        }
    }
}
