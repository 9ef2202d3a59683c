//! The limits on lines, and the text of the lines before the one that passes them.
use crate::ending;
use crate::failing_reader::{Endless, FailingReader};
use std::alloc::{AllocError, Global};
use std::io::{self, Read, Write};
use xns_dump::dump;

pub fn show(rt: &HostRuntime) -> Result<(), anyhow::Error> {
    show_run(rt, "0 for ever", &mut Endless(b'0'))?;
    show_run(rt, "newlines for ever", &mut Endless(b'\n'))?;
    for count in [4096, 4097] {
        show_many(rt, count, b' ', "blanks")?;
    }
    for count in [65536, 65537] {
        show_many(rt, count, b'\n', "newlines")?;
    }
    show_pieces(rt)
}

/// The outcome for an input of one sign, this many times.
fn show_many(rt: &HostRuntime, count: usize, sign: u8, name: &str) -> Result<(), anyhow::Error> {
    let input = vec![in rt.alloc(); sign; count]?;
    println!(rt; "{count} {name}:")?;
    show_run(rt, "in one piece", &mut input.as_slice())
}

/// A good line, and a line that is too long.
fn long_input(alloc: Global) -> Result<Vec<u8>, AllocError> {
    let mut input = Vec::from_slice(alloc, b"48\n")?;
    input.resize(5000, b'0')?;
    Ok(input)
}

/// A good line is written before a fault, however the input is cut into pieces.
fn show_pieces(rt: &HostRuntime) -> Result<(), anyhow::Error> {
    println!(rt; "a good line and 4997 digits:")?;
    show_each_piece(rt, long_input(rt.alloc())?.as_slice())
}

fn show_each_piece(rt: &HostRuntime, input: &[u8]) -> Result<(), anyhow::Error> {
    for (most, name) in [
        (1, "in pieces of 1"),
        (2, "in pieces of 2"),
        (3, "in pieces of 3"),
        (4, "in pieces of 4"),
        (100, "in pieces of 100"),
        (5000, "in one piece"),
    ] {
        let mut reader = FailingReader {
            rest: input,
            most,
            reads: 0,
            fails_at: 0,
        };
        show_run(rt, name, &mut reader)?;
    }
    Ok(())
}

/// How `dump` of the input ends, how many bytes it writes, and the last 26 of them.
fn show_run<R: Read>(rt: &HostRuntime, name: &str, reader: &mut R) -> Result<(), anyhow::Error> {
    let mut text = Vec::new(rt.alloc());
    let answer = dump(rt.alloc(), reader, &mut text);
    println!(rt;
        "{name}: {}, {} bytes are written",
        ending(&answer),
        text.len()
    )?;
    let from = text.len().saturating_sub(26);
    io::writer(rt).write_all(text.as_slice().get(from..).unwrap_or_default())?;
    Ok(())
}
