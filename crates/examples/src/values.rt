//! Courier's values: a sequence is read and checked, and its sum written.

use courier_types::{ReadRefusal, Shape, Value, fits, read, write};
use std::alloc::{AllocError, Global};
use std::io::{self, Print};

/// How many numbers are added at most.
const MOST: u16 = 100;

/// The sum of the cardinals that the words spell, as the words of a long cardinal; `None` where they spell no such sequence,
/// or other words follow.
pub fn sum_of(alloc: Global, words: &[u16]) -> Result<Option<Vec<u16>>, AllocError> {
    match read_sum(alloc, words)? {
        Some(sum) => Ok(Some(spelled(alloc, sum)?)),
        None => Ok(None),
    }
}

/// The sum of the cardinals that the words spell; `None` where they spell no such sequence, or other words follow.
fn read_sum(alloc: Global, words: &[u16]) -> Result<Option<u32>, AllocError> {
    let numbers = Shape::Sequence(MOST, Box::new(alloc, Shape::Cardinal)?);
    if numbers.check().is_err() {
        return Ok(None);
    }
    whole_sum(&read(alloc, &numbers, words), words.len())
}

/// The sum of the sequence that was read, where it took so many words.
fn whole_sum(
    answer: &Result<(Value, usize), ReadRefusal>,
    count: usize,
) -> Result<Option<u32>, AllocError> {
    match answer {
        Ok((value, taken)) if *taken == count => Ok(Some(added(value))),
        Ok(_) | Err(ReadRefusal::Fault(_)) => Ok(None),
        Err(ReadRefusal::NoMemory) => Err(AllocError),
    }
}

/// The number as the words of a long cardinal.
fn spelled(alloc: Global, number: u32) -> Result<Vec<u16>, AllocError> {
    let value = Value::LongCardinal(number);
    let mut words = Vec::new(alloc);
    if fits(&Shape::LongCardinal, &value) {
        write(alloc, &Shape::LongCardinal, &value, &mut words)?;
    }
    Ok(words)
}

/// The sum of a sequence's cardinals.
fn added(value: &Value) -> u32 {
    let mut sum: u32 = 0;
    if let Value::Sequence(values) = value {
        for number in values {
            if let Value::Cardinal(word) = number {
                sum = sum.saturating_add(u32::from(*word));
            }
        }
    }
    sum
}

/// Adds three numbers, and then a sequence whose last number is missing.
pub fn show(rt: &impl Print, alloc: Global) -> io::Result<()> {
    let added = "1, 2 and 65535 add up to the words";
    print_sum(rt, alloc, added, &[3, 1, 2, 65535])?;
    let cut = "a sequence that is cut short gives";
    print_sum(rt, alloc, cut, &[3, 1, 2])
}

/// Prints the sum of the words, behind the text that tells of them.
fn print_sum(rt: &impl Print, alloc: Global, told: &str, words: &[u16]) -> io::Result<()> {
    println!(rt; "{told} {:?}", sum_of(alloc, words)?)
}
