//! What `xns_idp`, `xns_small` and `xns_spp` make of worked examples, and `item_world` of items, as the lines of the input say. The packets
//! are by hand from the standard, and their sums were checked by a separate program.
//!
//! A line is `NAME = STEPS`, and comes back as its name and the result of the last step. Without a name it is done in
//! silence. Steps are parted by `;`, and `3 times STEPS` does them three times. `#` begins a comment.
//!
//! BYTES are hex digits, which spaces may part; `5a*534` is a byte 534 times, and `-` none. `packet 0` is the first
//! packet that an end sent last, `reply` what an end last replied, and `in packet 0` and `in reply` are what such a
//! packet carries.
//!
//! - `decode BYTES`, `read_echo BYTES` and the like tell what the function of that name makes of the bytes, and `fault
//!   BYTES` has its words too. `sum BYTES` is their checksum, `bytes BYTES` the bytes themselves, and `nearest 65534 1`
//!   the number nearest to 65,534 with 1 as its field.
//! - `write packet aa BYTES`, `write echo aa BYTES` and the like read the bytes, and write what was read behind aa.
//! - `at server echo BYTES` is the reply of the Echo server there to a packet, and `at server answered BYTES` whether there is one.
//!   `at server complain BYTES` is the complaint of a wrong checksum, and `at server refuse BYTES` that of no named
//!   reason. In place of `server` there may be `caller`.
//! - `request` is a request of Packet Exchange, and `accept BYTES` what such a requester makes of a packet.
//! - `ends 4` makes a caller and a server with a window of four, `ends 4 another` with another server. Then `caller` and `server` each may
//!   `tick`, `flush`, `send BYTES`, `send attention BYTES`, `receive BYTES` and `take`; `full`, `open`, `waiting` and `owns BYTES` ask.
//! - `controls BYTES` gives new servers a packet with each control from its own on, while they come to the same.
//!
//! The line `faults` prints what the faults of each kind say. Three more lines play items between two ends: `plays` prints what comes of
//! worked plays and of plays of steps that look random, `timeouts` how many timeouts and packets 640 items take, and `long play` a play of
//! 140,000 items each way.
#![tactic(auto)]

mod ends;
mod faults;
mod hexed;
mod reading;
mod sent;
mod small;
mod text;
mod writing;

use crate::ends::Ends;
use std::alloc::{AllocError, Global};
use test_items::{long_play, plays, timeouts};
use test_setting::SERVER_ID;

fn main(rt: HostRuntime) -> Result<(), anyhow::Error> {
    let mut ends = Ends::new(rt.alloc(), 4, SERVER_ID)?;
    show_all(&rt, &mut ends)
}

fn show_all(rt: &HostRuntime, ends: &mut Ends) -> Result<(), anyhow::Error> {
    for line in rt.lines(rt.alloc()) {
        show(rt, ends, line?.as_str())?;
    }
    Ok(())
}

/// Does what a line says: nothing of a comment.
fn show(rt: &HostRuntime, ends: &mut Ends, line: &str) -> Result<(), anyhow::Error> {
    match line {
        "" => Ok(()),
        "faults" => faults::show(rt),
        "plays" => plays::show(rt),
        "timeouts" => timeouts::show(rt),
        "long play" => long_play::show(rt),
        _ if line.starts_with("#") => Ok(()),
        _ => show_answer(rt, ends, line),
    }
}

/// Takes the steps of a line, and prints the result: nothing of steps without a name.
fn show_answer(rt: &HostRuntime, ends: &mut Ends, line: &str) -> Result<(), anyhow::Error> {
    let (name, steps) = line.split_once(" = ").unwrap_or(("", line));
    let answer = answer(rt.alloc(), ends, steps)?;
    if !name.is_empty() {
        println!(rt; "{name} {}", answer.as_str())?;
    }
    Ok(())
}

/// The result of the last of the steps.
fn answer(alloc: Global, ends: &mut Ends, line: &str) -> Result<String, AllocError> {
    let mut text = String::new(alloc);
    repeat(alloc, ends, line, &mut text)?;
    Ok(text)
}

/// Takes the steps as often as the line says, and leaves the result of the last one.
fn repeat(alloc: Global, ends: &mut Ends, line: &str, text: &mut String) -> Result<(), AllocError> {
    let (count, steps) = line.split_once(" times ").unwrap_or(("1", line));
    for _ in 0..count.parse::<u16>().unwrap_or(0) {
        ends.take_steps(alloc, steps, text)?;
    }
    Ok(())
}
