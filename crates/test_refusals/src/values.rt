//! Courier's values.

use crate::outcome::{Outcome, done, refused};
use courier_types::{ReadFault, ReadRefusal, Reason, Shape, Value, fits, read, read_pieces, write};
use std::alloc::{AllocError, Global};

/// Two long cardinals in a sequence, as words.
const WORDS: [u16; 5] = [2, 0, 1, 0, 2];

/// A record of one choice, whose designator is 3 and which is a text of five bytes, as words.
const RECORD: [u16; 5] = [3, 5, 0x4865, 0x6c6c, 0x6f00];

fn shape(alloc: Global) -> Result<Shape, AllocError> {
    Ok(Shape::Sequence(9, Box::new(alloc, Shape::LongCardinal)?))
}

/// A record of one choice, which is a text.
fn record_shape(alloc: Global) -> Result<Shape, AllocError> {
    let members = vec![in alloc; (3, Shape::Text)]?;
    Ok(Shape::Fields(vec![in alloc; Shape::Choice(members)]?))
}

/// The outcome of reading all the words as one value.
fn reads_whole(alloc: Global, shape: &Shape, words: &[u16]) -> Outcome {
    if shape.check().is_err() {
        return Outcome::Broken;
    }
    match read(alloc, shape, words) {
        Ok((_, taken)) => return done(taken == words.len()),
        Err(ReadRefusal::NoMemory) => {}
        Err(ReadRefusal::Fault(_)) => return Outcome::Broken,
    }
    match read(alloc, shape, words) {
        Ok((_, taken)) => refused(true, taken == words.len()),
        Err(_) => Outcome::Broken,
    }
}

pub fn reads(alloc: Global) -> Result<Outcome, AllocError> {
    let shape = shape(alloc)?;
    Ok(reads_whole(alloc, &shape, &WORDS))
}

pub fn reads_a_record(alloc: Global) -> Result<Outcome, AllocError> {
    let shape = record_shape(alloc)?;
    Ok(reads_whole(alloc, &shape, &RECORD))
}

/// The outcome of reading the count 65,535 with no word behind it: no room is made ahead of the words, so there is nothing to refuse.
fn reads_a_count(alloc: Global, shape: &Shape) -> Outcome {
    if shape.check().is_err() {
        return Outcome::Broken;
    }
    match read(alloc, shape, &[65535]) {
        Err(
            ReadRefusal::Fault(
                ReadFault {
                    place: 1,
                    reason: Reason::Truncated,
                },
            ),
        ) => Outcome::Done,
        _ => Outcome::Broken,
    }
}

pub fn reads_a_count_of_bytes(alloc: Global) -> Result<Outcome, AllocError> {
    Ok(reads_a_count(alloc, &Shape::Text))
}

pub fn reads_a_count_of_words(alloc: Global) -> Result<Outcome, AllocError> {
    let shape = Shape::Sequence(65535, Box::new(alloc, Shape::Cardinal)?);
    Ok(reads_a_count(alloc, &shape))
}

pub fn reads_a_count_of_values(alloc: Global) -> Result<Outcome, AllocError> {
    let shape = Shape::Sequence(65535, Box::new(alloc, Shape::LongCardinal)?);
    Ok(reads_a_count(alloc, &shape))
}

/// The bytes of the words, in two pieces.
fn pieces(alloc: Global) -> Result<[Vec<u8>; 2], AllocError> {
    let front = Vec::from_slice(alloc, &[0, 2, 0])?;
    let back = Vec::from_slice(alloc, &[0, 0, 1, 0, 0, 0, 2])?;
    Ok([front, back])
}

/// The outcome of reading all the words of the pieces as one value.
fn reads_all_pieces(alloc: Global, shape: &Shape, pieces: &[Vec<u8>]) -> Outcome {
    if shape.check().is_err() {
        return Outcome::Broken;
    }
    match read_pieces(alloc, shape, pieces, 0) {
        Ok((_, taken)) => return done(taken == WORDS.len()),
        Err(ReadRefusal::NoMemory) => {}
        Err(ReadRefusal::Fault(_)) => return Outcome::Broken,
    }
    match read_pieces(alloc, shape, pieces, 0) {
        Ok((_, taken)) => refused(true, taken == WORDS.len()),
        Err(_) => Outcome::Broken,
    }
}

pub fn reads_pieces(alloc: Global) -> Result<Outcome, AllocError> {
    let shape = shape(alloc)?;
    let pieces = pieces(alloc)?;
    Ok(reads_all_pieces(alloc, &shape, &pieces))
}

/// The outcome of writing the value behind the one word of the vector.
fn writes_behind(alloc: Global, value: &Value, out: &mut Vec<u16>) -> Outcome {
    if !fits(&Shape::LongCardinal, value) {
        return Outcome::Broken;
    }
    if write(alloc, &Shape::LongCardinal, value, out).is_ok() {
        return done(out.as_slice() == [0xaa, 1, 2].as_slice());
    }
    let stood = out.as_slice() == [0xaa].as_slice();
    let again = write(alloc, &Shape::LongCardinal, value, out).is_ok();
    refused(stood, again && out.as_slice() == [0xaa, 1, 2].as_slice())
}

pub fn writes(alloc: Global) -> Result<Outcome, AllocError> {
    let mut out = vec![in alloc; 0x00aa]?;
    Ok(writes_behind(alloc, &Value::LongCardinal(0x10002), &mut out))
}
