//! Values and bytes as text, and bytes of text.
ghost use Rattle.std.specs.Prelude.{◌<◌};

use crate::hexed::Hexed;
use std::alloc::{AllocError, Global};
use std::fmt::{Debug, Write};

/// A value as Rust prints it.
pub fn put<T: Debug>(text: &mut String, value: &T) -> Result<(), AllocError> {
    write!(text, "{value:?}")
}

pub fn put_hexed(text: &mut String, bytes: &[u8]) -> Result<(), AllocError> {
    write!(text, "{}", Hexed(bytes))
}

/// Bytes as digits of hex, or that there are none.
pub fn put_hexed_if_any(text: &mut String, bytes: &Option<Vec<u8>>) -> Result<(), AllocError> {
    match bytes {
        Some(bytes) => put_hexed(text, bytes),
        None => text.push_str("none"),
    }
}

/// A line's first word, and the text behind it.
pub fn first_word(words: &str) -> (&str, &str) {
    words.split_once(" ").unwrap_or((words, ""))
}

/// What a hex digit stands for; 0 for any other sign.
fn digit(sign: u8) -> u8
    ensures { result < 16 }
{
    match sign {
        b'0'..=b'9' => sign - b'0',
        b'a'..=b'f' => sign - b'a' + 10,
        _ => 0,
    }
}

fn push_digits(bytes: &mut Vec<u8>, digits: &str) -> Result<(), AllocError> {
    for pair in digits.as_bytes().chunks_exact(2) {
        if let [high, low] = pair {
            bytes.push(digit(*high) * 16 + digit(*low))?;
        }
    }
    Ok(())
}

/// The bytes that words stand for: pairs of hex digits, and how often they come.
pub fn read_bytes(alloc: Global, words: &str) -> Result<Vec<u8>, AllocError> {
    let mut bytes = Vec::new(alloc);
    push_words(&mut bytes, words)?;
    Ok(bytes)
}

fn push_words(bytes: &mut Vec<u8>, words: &str) -> Result<(), AllocError> {
    for word in words.split(" ") {
        push_word(bytes, word)?;
    }
    Ok(())
}

/// Adds the bytes of a word, as often as it says.
fn push_word(bytes: &mut Vec<u8>, word: &str) -> Result<(), AllocError> {
    let (digits, count) = word.split_once("*").unwrap_or((word, "1"));
    for _ in 0..count.parse::<u16>().unwrap_or(0) {
        push_digits(bytes, digits)?;
    }
    Ok(())
}
