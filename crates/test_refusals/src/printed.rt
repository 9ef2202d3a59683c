//! What a command prints of an input in memory.

use crate::inputs::{CALLS, CAPTURE, PACKET, PLAY, REPORT, SCRIPT};
use crate::outcome::{Outcome, done, refused};
use std::alloc::{AllocError, Global};
use xns_calls::calls;
use xns_dump::dump;
use xns_lines::RunFault;
use xns_sim::sim;

/// The outcome of a command, with room in the vector for the text that it should print. A run that was refused memory has
/// printed a front of `begun`.
fn prints_in<F: Fn(Global, &mut Vec<u8>) -> Result<bool, RunFault>>(
    alloc: Global,
    wanted: &[u8],
    begun: &[u8],
    run: F,
    text: &mut Vec<u8>,
) -> Outcome
    requires { F.IsAlwaysCallable run }
{
    let answer = run(alloc, text);
    if answer == Ok(false) {
        return done(text.as_slice() == wanted);
    }
    let stood = answer == Err(RunFault::NoMemory) && begun.starts_with(text);
    text.clear();
    let again = run(alloc, text);
    refused(stood, again == Ok(false) && text.as_slice() == wanted)
}

/// The outcome of a command that should print this text.
fn prints<F: Fn(Global, &mut Vec<u8>) -> Result<bool, RunFault>>(
    alloc: Global,
    wanted: &[u8],
    begun: &[u8],
    run: F,
) -> Result<Outcome, AllocError>
    requires { F.IsAlwaysCallable run }
{
    let mut text = Vec::with_capacity(alloc, wanted.len())?;
    Ok(prints_in(alloc, wanted, begun, run, &mut text))
}

/// The outcome of `dump`, which prints the lines that come before a refusal.
pub fn dumps(alloc: Global) -> Result<Outcome, AllocError> {
    prints(alloc, REPORT, REPORT, |alloc, text| {
        dump(alloc, &mut &*PACKET, text)
    })
}

/// The outcome of `calls`, which prints the lines that come before a refusal.
pub fn lists_calls(alloc: Global) -> Result<Outcome, AllocError> {
    prints(alloc, CALLS, CALLS, |alloc, text| {
        calls(alloc, None, &mut &*CAPTURE, text)
    })
}

/// The outcome of `sim`, which prints nothing of a play that was refused memory.
pub fn plays(alloc: Global) -> Result<Outcome, AllocError> {
    prints(alloc, PLAY, b"", |alloc, text| {
        sim(alloc, &mut &*SCRIPT, text)
    })
}
