//! Calls to a tally, through what a script says.
use crate::play::print_count;
use courier_calls::{Seen, Tally, tally_table};
use courier_types::Value;
use std::alloc::AllocError;
use std::io;
use test_setting::SETUP;
use xns_script::Script;
use xns_world::{CallTrace, play_calls};

/// How many bytes a line has at most.
const MOST_BYTES: usize = 4_096;

/// Plays the script of standard input between the ends of `xns sim`, and prints what `xns sim` prints.
pub fn play(rt: &HostRuntime) -> io::Result<()> {
    let mut script = Script::new(rt.alloc());
    read_script(rt, &mut script)?;
    play_script(rt, &script)
}

/// Plays the script, and prints the trace; nothing where a line of it is refused.
fn play_script(rt: &HostRuntime, script: &Script) -> io::Result<()> {
    let setup = SETUP;
    if script.refused().is_some() || !setup.is_good() {
        return Ok(());
    }
    let table = tally_table(rt.alloc())?;
    let (calls, events) = (script.calls(), script.events());
    let trace = play_calls(rt.alloc(), &setup, &table, Tally::new(), calls, events)?;
    print_trace(rt, calls.len(), &trace)
}

/// Prints the trace of so many calls.
fn print_trace(rt: &HostRuntime, calls: usize, trace: &CallTrace<Tally>) -> io::Result<()> {
    print_count(rt, "calls", calls)?;
    print_count(rt, "carried", trace.carried.len())?;
    print_seen(rt, trace.seen.as_slice())?;
    print_count(rt, "total", trace.service.total() as usize)?;
    print_count(rt, "packets", trace.bag.as_slice().len())
}

/// Prints the total that each call returned.
fn print_seen(rt: &HostRuntime, outcomes: &[Seen]) -> io::Result<()> {
    for (place, seen) in outcomes.iter().enumerate() {
        println!(rt; "{} returned {}", place.saturating_add(1), total(seen))?;
    }
    Ok(())
}

/// Reads the script of standard input.
fn read_script(rt: &HostRuntime, script: &mut Script) -> io::Result<()> {
    let mut number: usize = 0;
    for line in rt.lines(rt.alloc()) {
        number = number.saturating_add(1);
        read_line(script, number, line?.as_str())?;
    }
    Ok(())
}

/// Reads a line that is not too long.
fn read_line(script: &mut Script, number: usize, line: &str) -> Result<(), AllocError> {
    if line.len() <= MOST_BYTES {
        script.read_line(number, line.as_bytes())?;
    }
    Ok(())
}

/// The total that a call returned, and 0 of any other outcome.
fn total(seen: &Seen) -> u32 {
    match seen {
        Seen::Returned(Value::LongCardinal(total)) => *total,
        _ => 0,
    }
}
