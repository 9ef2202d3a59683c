//! Shapes that are checked, and values that are read and written again.
//!
//! A line has parts with `; ` between them: first the name that is told, then shapes, numbers or bytes.
use crate::script::{put, unhexed};
use crate::shapes::{numbers, shape};
use courier_types::{ReadRefusal, Shape, Value, fits, read, read_pieces, write};
use std::alloc::{AllocError, Global};
use std::fmt::Write;

/// The first part of a line, and the others.
fn parts(line: &str) -> (&str, &str) {
    line.split_once("; ").unwrap_or((line, ""))
}

/// The first fault of a shape: `NAME; SHAPE`.
pub fn check(alloc: Global, line: &str, text: &mut String) -> Result<(), AllocError> {
    let (name, words) = parts(line);
    write!(text, "{name}: ")?;
    put(text, &shape(alloc, words)?.check())
}

fn put_written(
    alloc: Global,
    shape: &Shape,
    answer: &Result<(Value, usize), ReadRefusal>,
    text: &mut String,
) -> Result<(), AllocError> {
    let Ok((value, _)) = answer else {
        return Ok(());
    };
    if !fits(shape, value) {
        return text.push_str(", which does not fit");
    }
    let mut words = vec![in alloc; 170]?;
    write(alloc, shape, value, &mut words)?;
    text.push_str("\n  written: ")?;
    put(text, &words)
}

/// What was read, and what it is written as.
fn put_answer(
    alloc: Global,
    shape: &Shape,
    answer: &Result<(Value, usize), ReadRefusal>,
    text: &mut String,
) -> Result<(), AllocError> {
    put(text, answer)?;
    put_written(alloc, shape, answer, text)
}

/// The value that words begin with, and what it is written as.
fn put_read(
    alloc: Global,
    shape: &Shape,
    words: &[u16],
    text: &mut String,
) -> Result<(), AllocError> {
    write!(text, " from {words:?}: ")?;
    match shape.check() {
        Ok(()) => put_answer(alloc, shape, &read(alloc, shape, words), text),
        Err(_) => text.push_str("the shape has a fault"),
    }
}

/// The value that words begin with, and what it is written as behind the word 170: `NAME; SHAPE; WORDS`.
pub fn read_again(alloc: Global, line: &str, text: &mut String) -> Result<(), AllocError> {
    let (name, rest) = parts(line);
    let (spelled, listed) = parts(rest);
    text.push_str(name)?;
    put_read(
        alloc,
        &shape(alloc, spelled)?,
        &numbers(alloc, listed)?,
        text,
    )
}

fn bytes_between(alloc: Global, digits: &str) -> Result<Vec<Vec<u8>>, AllocError> {
    let mut pieces = Vec::new(alloc);
    for piece in digits.split('/') {
        pieces.push(unhexed(alloc, piece)?)?;
    }
    Ok(pieces)
}

/// The value that pieces of bytes begin with behind so many words.
fn put_pieced(
    alloc: Global,
    shape: &Shape,
    pieces: &[Vec<u8>],
    skip: usize,
    text: &mut String,
) -> Result<(), AllocError> {
    write!(text, " in {pieces:?} behind {skip}: ")?;
    match shape.check() {
        Ok(()) => put(text, &read_pieces(alloc, shape, pieces, skip)),
        Err(_) => text.push_str("the shape has a fault"),
    }
}

/// The value that pieces of bytes begin with behind so many words: `NAME; SHAPE; WORDS BEFORE IT; BYTES/BYTES/..`.
pub fn read_pieced(alloc: Global, line: &str, text: &mut String) -> Result<(), AllocError> {
    let (name, rest) = parts(line);
    let (spelled, rest) = parts(rest);
    let (skipped, digits) = parts(rest);
    let skip = skipped.parse::<usize>().unwrap_or(0);
    text.push_str(name)?;
    let pieces = bytes_between(alloc, digits)?;
    put_pieced(alloc, &shape(alloc, spelled)?, &pieces, skip, text)
}

/// The value of a checked shape that words begin with.
fn value(alloc: Global, spelled: &str, listed: &str) -> Result<Option<Value>, AllocError> {
    let words = numbers(alloc, listed)?;
    let shape = shape(alloc, spelled)?;
    if shape.check().is_err() {
        return Ok(None);
    }
    match read(alloc, &shape, &words) {
        Ok((value, _)) => Ok(Some(value)),
        Err(_) => Ok(None),
    }
}

fn tell_fit(
    alloc: Global,
    name: &str,
    other: &str,
    value: &Value,
    text: &mut String,
) -> Result<(), AllocError> {
    let fit = fits(&shape(alloc, other)?, value);
    write!(text, "{name}: {fit}")
}

/// Whether the value of a shape that words begin with fits another shape: `NAME; OTHER SHAPE; SHAPE; WORDS`.
pub fn fit(alloc: Global, line: &str, text: &mut String) -> Result<(), AllocError> {
    let (name, rest) = parts(line);
    let (other, rest) = parts(rest);
    let (spelled, listed) = parts(rest);
    match value(alloc, spelled, listed)? {
        Some(value) => tell_fit(alloc, name, other, &value, text),
        None => text.push_str("the words begin with no value"),
    }
}
