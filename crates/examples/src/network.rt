//! A call over a network that delivers packets late, and more than once: it is carried out once.

use crate::calls::add_five;
use crate::hosts::{CALLER, SERVER};
use courier_calls::{Tally, call_fits, tally_table};
use item_world::{Event, Setup, Side};
use std::io;
use xns_world::{CallTrace, play_calls};

/// The two ends: the caller is at A.
const SETUP: Setup = Setup {
    a: CALLER,
    b: SERVER,
    a_id: 0x1234,
    b_id: 0x5678,
    window: 4,
    backlog: 16,
};

/// The events: A opens the connection, and then packets arrive, the first two of them again and again.
const EVENTS: [Event; 12] = [
    Event::Tick(Side::A),
    Event::Rest,
    Event::Rest,
    Event::Deliver(0),
    Event::Deliver(1),
    Event::Rest,
    Event::Tick(Side::A),
    Event::Rest,
    Event::Deliver(1),
    Event::Tick(Side::B),
    Event::Rest,
    Event::Rest,
];

/// Plays a call of Add of 5 over such a network.
pub fn play(rt: &HostRuntime) -> io::Result<()> {
    let alloc = rt.alloc();
    let table = tally_table(alloc)?;
    let call = add_five();
    if !SETUP.is_good() || !call_fits(&table, &call) {
        return Ok(());
    }
    let trace = play_calls(alloc, &SETUP, &table, Tally::new(), &[call], &EVENTS)?;
    print_trace(rt, &trace)
}

/// Prints how often the call was carried out and answered, and the server's total.
fn print_trace(rt: &HostRuntime, trace: &CallTrace<Tally>) -> io::Result<()> {
    println!(rt;
        "{} carried out, {} answered, the total is {}",
        trace.carried.len(),
        trace.seen.len(),
        trace.service.total()
    )
}
