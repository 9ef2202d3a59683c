//! Plays of calls to a tally.
use crate::items::put_bag;
use crate::lines::{Lines, Told};
use crate::steps::unfold;
use crate::telling::{put_call, put_seen, put_total};
use courier_calls::{Call, Tally, tally_table};
use item_world::Setup;
use std::alloc::{AllocError, Global};
use xns_script::Script;
use xns_world::{CallTrace, play_calls};

/// How many bytes a step has at most.
const MOST_BYTES: usize = 4_096;

pub fn put_carried(lines: &mut Lines, carried: &[Call]) {
    for call in carried {
        put_call(lines, call);
    }
}

fn put_trace(lines: &mut Lines, trace: &CallTrace<Tally>) {
    put_carried(lines, trace.carried.as_slice());
    for seen in trace.seen.as_slice() {
        put_seen(lines, seen);
    }
    put_total(lines, &trace.service);
    put_bag(lines, &trace.bag);
}

/// Reads the steps that are not too long.
fn read_steps(script: &mut Script, steps: &[&str]) -> Result<(), AllocError> {
    let mut number = 0_usize;
    for step in steps {
        number = number.saturating_add(1);
        if step.len() <= MOST_BYTES {
            script.read_line(number, step.as_bytes())?;
        }
    }
    Ok(())
}

/// Tells what comes of the script.
fn put_played(alloc: Global, lines: &mut Lines, setup: &Setup, script: &Script) -> Told {
    if !setup.is_good() {
        lines.put("no such ends");
        return Ok(());
    }
    let table = tally_table(alloc)?;
    let (calls, events) = (script.calls(), script.events());
    let trace = play_calls(alloc, setup, &table, Tally::new(), calls, events)?;
    put_trace(lines, &trace);
    Ok(())
}

fn read_script(alloc: Global, steps: &str) -> Result<Script, AllocError> {
    let mut script = Script::new(alloc);
    read_steps(&mut script, unfold(alloc, steps)?.as_slice())?;
    Ok(script)
}

/// Tells what comes of the steps: the calls that the server decided, the outcomes that the caller saw, the total and the packets.
pub fn play(alloc: Global, lines: &mut Lines, setup: &Setup, steps: &str) -> Told {
    let script = read_script(alloc, steps)?;
    if let Some(number) = script.refused() {
        lines.add_number("step ", number);
        lines.put(" refused");
        return Ok(());
    }
    put_played(alloc, lines, setup, &script)
}
