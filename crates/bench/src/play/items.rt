//! Items each way.
use crate::play::print_count;
use item_world::{Event, ItemTrace, Items, Side, play_items};
use std::alloc::{AllocError, Global};
use std::io;
use test_setting::{WIDE_SETUP, numbered};

/// How many items go out each way before packets are delivered.
const ROUND: u32 = 16;

/// Plays so many items each way, and prints how many came through.
pub fn play(rt: &HostRuntime, count: u32) -> io::Result<()> {
    let mut events = Vec::new(rt.alloc());
    push_events(rt.alloc(), &mut events, count)?;
    play_events(rt, &events)
}

/// Plays the events, and prints the trace; nothing where there are no such ends.
fn play_events(rt: &HostRuntime, events: &[Event]) -> io::Result<()> {
    let setup = WIDE_SETUP;
    if !setup.is_good() {
        return Ok(());
    }
    let trace = play_items(rt.alloc(), &setup, events)?;
    print_trace(rt, &trace)
}

/// Prints how many items came through.
fn print_trace(rt: &HostRuntime, trace: &ItemTrace) -> io::Result<()> {
    print_both(rt, "sent", &trace.a_sent, &trace.b_sent)?;
    print_both(rt, "handed up", &trace.b_handed, &trace.a_handed)?;
    print_count(rt, "packets", trace.bag.as_slice().len())
}

/// Prints how many items these are, those from A first.
fn print_both(rt: &HostRuntime, what: &str, from_a: &Items, from_b: &Items) -> io::Result<()> {
    println!(rt;
        "{what} {} and {}",
        from_a.as_slice().len(),
        from_b.as_slice().len()
    )
}

/// Adds the events by which the connection is opened and each side then sends this many items.
fn push_events(alloc: Global, events: &mut Vec<Event>, count: u32) -> Result<(), AllocError> {
    events.push(Event::Tick(Side::A))?;
    push_rest(events)?;
    for number in 0..count {
        push_sends(alloc, events, number)?;
        if number % ROUND == ROUND - 1 {
            push_arrival(events)?;
        }
    }
    push_arrival(events)
}

/// Lets both sides send the item with this number.
fn push_sends(alloc: Global, events: &mut Vec<Event>, number: u32) -> Result<(), AllocError> {
    for side in &[Side::A, Side::B] {
        events.push(Event::Send(*side, numbered(alloc, number)?))?;
    }
    Ok(())
}

/// Adds that all packets arrive, and that both sides hand up the items that they bring.
fn push_arrival(events: &mut Vec<Event>) -> Result<(), AllocError> {
    push_rest(events)?;
    push_takes(events)
}

/// Adds that all packets arrive, and the replies to them.
fn push_rest(events: &mut Vec<Event>) -> Result<(), AllocError> {
    for _ in 0..2 {
        events.push(Event::Rest)?;
    }
    Ok(())
}

/// Lets both sides hand up what a round brought.
fn push_takes(events: &mut Vec<Event>) -> Result<(), AllocError> {
    for _ in 0..ROUND {
        events.push(Event::Take(Side::A))?;
        events.push(Event::Take(Side::B))?;
    }
    Ok(())
}
