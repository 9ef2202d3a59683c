//! Prints what `dump`, `calls` and `sim` make of the texts on its lines, so that it can be compared. In a text `\n`, `\r` and `\t` stand
//! for a newline, a carriage return and a tab.
//!
//! - `dump TEXT`, `calls TEXT` and `sim TEXT` print what is written of the text, and how that ended.
//! - `reads 7 dump TEXT` reads the text in pieces of 7 bytes: once with each read failing.
//! - `writes dump TEXT` writes a byte at a time: once with each write failing. Then it writes to what takes nothing.
//! - `limits` reads inputs at the limits on lines, and beyond them.
//!
//! All other lines come back as they are.
#![tactic(auto)]

mod failing_reader;
mod failing_writer;
mod faults;
mod limits;
mod mode;

use crate::mode::{Mode, Outcome};
use std::alloc::{AllocError, Global};
use std::io::{self, Write};
use xns_lines::RunFault;

fn main(rt: HostRuntime) -> Result<(), anyhow::Error> {
    for line in rt.lines(rt.alloc()) {
        show(&rt, line?.as_str())?;
    }
    Ok(())
}

/// Does what a line says, and prints the outcome.
fn show(rt: &HostRuntime, line: &str) -> Result<(), anyhow::Error> {
    let (first, rest) = line.split_once(' ').unwrap_or((line, ""));
    match first {
        "dump" | "calls" | "sim" => show_text(rt, line),
        "reads" => faults::show_reads(rt, rest),
        "writes" => faults::show_writes(rt, rest),
        "limits" => limits::show(rt),
        _ => {
            println!(rt; "{line}")?;
            Ok(())
        }
    }
}

/// What is written of the text, and how that ended.
fn show_text(rt: &HostRuntime, words: &str) -> Result<(), anyhow::Error> {
    let outcome = outcome(rt.alloc(), words)?;
    io::writer(rt).write_all(outcome.text.as_slice())?;
    println!(rt; "# {}", ending(&outcome.answer))?;
    Ok(())
}

fn outcome(alloc: Global, words: &str) -> Result<Outcome, AllocError> {
    let (mode, input) = run_of(alloc, words)?;
    Ok(mode.outcome(alloc, &mut input.as_slice()))
}

/// The mode and the text of the words.
fn run_of(alloc: Global, words: &str) -> Result<(Mode, Vec<u8>), AllocError> {
    let (name, text) = words.split_once(' ').unwrap_or((words, ""));
    Ok((Mode::named(name), unescaped(alloc, text)?))
}

/// The bytes that the text stands for.
fn unescaped(alloc: Global, text: &str) -> Result<Vec<u8>, AllocError> {
    let mut bytes = Vec::new(alloc);
    for (place, part) in text.split('\\').enumerate() {
        let (sign, rest) = if place == 0 {
            (None, part)
        } else {
            match part.split_at_checked(1) {
                Some((letter, rest)) => (sign_of(letter), rest),
                None => (None, part),
            }
        };
        if let Some(sign) = sign {
            bytes.push(sign)?;
        }
        bytes.extend_from_slice(rest.as_bytes())?;
    }
    Ok(bytes)
}

/// The sign that the letter behind a backslash stands for.
fn sign_of(letter: &str) -> Option<u8> {
    match letter {
        "n" => Some(b'\n'),
        "r" => Some(b'\r'),
        "t" => Some(b'\t'),
        _ => None,
    }
}

/// How a run ended.
fn ending(answer: &Result<bool, RunFault>) -> &'static str {
    match answer {
        Ok(false) => "nothing refused",
        Ok(true) => "something refused",
        Err(RunFault::Read) => "a read failed",
        Err(RunFault::Write) => "a write failed",
        Err(RunFault::LineTooLong) => "a line is too long",
        Err(RunFault::TooManyLines) => "too many lines",
        Err(RunFault::NoMemory) => "no memory",
    }
}
