//! Each read and each write fails in turn.
use crate::failing_reader::FailingReader;
use crate::failing_writer::FailingWriter;
use crate::mode::{Mode, Outcome};
use crate::{ending, run_of};
use std::alloc::Global;
use xns_lines::RunFault;

/// Reads that fail alike, one after another.
#[derive(Clone, Copy)]
struct Alike {
    first: usize,
    last: usize,
    /// How many bytes were written before the reads.
    written: usize,
}

/// More reads than any text has.
const MOST_READS: usize = 1_000;

/// What is written before each read that fails, and at last how the run ends with none failing.
pub fn show_reads(rt: &HostRuntime, words: &str) -> Result<(), anyhow::Error> {
    let (most, words) = words.split_once(' ').unwrap_or((words, ""));
    let (mode, input) = run_of(rt.alloc(), words)?;
    show_each_read(
        rt,
        mode,
        input.as_slice(),
        most.parse::<usize>().unwrap_or(1),
    )
}

fn show_each_read(
    rt: &HostRuntime,
    mode: Mode,
    input: &[u8],
    most: usize,
) -> Result<(), anyhow::Error> {
    let mut rest = input;
    let whole = mode.outcome(rt.alloc(), &mut rest);
    let mut alike = Alike {
        first: 1,
        last: 0,
        written: 0,
    };
    for fails_at in 1..MOST_READS {
        let outcome = read_failing(rt.alloc(), mode, input, most, fails_at);
        if !show_read(rt, &whole, &outcome, fails_at, &mut alike)? {
            break;
        }
    }
    Ok(())
}

/// The outcome for the input in pieces of at most `most` bytes, with a read failing.
fn read_failing(alloc: Global, mode: Mode, input: &[u8], most: usize, fails_at: usize) -> Outcome {
    let mut reader = FailingReader {
        rest: input,
        most,
        reads: 0,
        fails_at,
    };
    mode.outcome(alloc, &mut reader)
}

/// Shows the reads before this one where it comes to something else. Returns whether a read failed.
fn show_read(
    rt: &HostRuntime,
    whole: &Outcome,
    outcome: &Outcome,
    fails_at: usize,
    alike: &mut Alike,
) -> Result<bool, anyhow::Error> {
    if outcome.answer != Err(RunFault::Read) {
        show_alike(rt, *alike)?;
        show_whole(rt, "no read fails", whole, outcome)?;
        return Ok(false);
    }
    if !whole.text.as_slice().starts_with(outcome.text.as_slice()) {
        println!(rt; "read {fails_at} fails: other bytes are written")?;
    }
    if outcome.text.len() != alike.written {
        show_alike(rt, *alike)?;
        alike.first = fails_at;
        alike.written = outcome.text.len();
    }
    alike.last = fails_at;
    Ok(true)
}

/// How a run ended in which nothing failed, and whether it came to the whole text.
fn show_whole(
    rt: &HostRuntime,
    name: &str,
    whole: &Outcome,
    outcome: &Outcome,
) -> Result<(), anyhow::Error> {
    println!(rt;
        "{name}: {}, all is written: {}",
        ending(&outcome.answer),
        outcome.answer == whole.answer && outcome.text == whole.text
    )?;
    Ok(())
}

fn show_alike(rt: &HostRuntime, alike: Alike) -> Result<(), anyhow::Error> {
    let Alike {
        first,
        last,
        written,
    } = alike;
    if first == last {
        println!(rt; "read {first} fails: {written} bytes are written")?;
    } else {
        println!(rt; "each of the reads {first} to {last} fails: {written} bytes are written")?;
    }
    Ok(())
}

/// How many bytes can be written with the next write failing, such that just they are written, and how the run ends with none failing.
pub fn show_writes(rt: &HostRuntime, words: &str) -> Result<(), anyhow::Error> {
    let (mode, input) = run_of(rt.alloc(), words)?;
    show_each_write(rt, mode, input.as_slice())?;
    show_taken_by_none(rt, mode, input.as_slice())
}

fn show_each_write(rt: &HostRuntime, mode: Mode, input: &[u8]) -> Result<(), anyhow::Error> {
    let mut rest = input;
    let whole = mode.outcome(rt.alloc(), &mut rest);
    let count = whole.text.len();
    let right = count_right(rt.alloc(), mode, input, &whole);
    println!(rt; "of {count} writes that fail, behind all bytes before: {right}")?;
    let outcome = write_failing(rt.alloc(), mode, input, count);
    show_whole(rt, "no write fails", &whole, &outcome)
}

/// How many of the writes fail behind all bytes before.
fn count_right(alloc: Global, mode: Mode, input: &[u8], whole: &Outcome) -> usize {
    let mut right: usize = 0;
    for most in 0..whole.text.len() {
        let outcome = write_failing(alloc, mode, input, most);
        let front = whole.text.as_slice().get(..most).unwrap_or_default();
        if outcome.answer == Err(RunFault::Write) && outcome.text.as_slice() == front {
            right = right.saturating_add(1);
        }
    }
    right
}

/// The outcome for the input, with each write failing once so many bytes are written.
fn write_failing(alloc: Global, mode: Mode, input: &[u8], most: usize) -> Outcome {
    let mut writer = FailingWriter {
        written: Vec::new(alloc),
        most,
    };
    let mut rest = input;
    let answer = mode.run(alloc, &mut rest, &mut writer);
    Outcome {
        answer,
        text: writer.written,
    }
}

/// How the run ends where the writer takes nothing.
fn show_taken_by_none(rt: &HostRuntime, mode: Mode, input: &[u8]) -> Result<(), anyhow::Error> {
    let mut rest = input;
    let mut nothing: &mut [u8] = &mut [];
    let answer = mode.run(rt.alloc(), &mut rest, &mut nothing);
    println!(rt; "a writer takes nothing: {}", ending(&answer))?;
    Ok(())
}
