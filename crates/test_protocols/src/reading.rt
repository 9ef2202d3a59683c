//! What functions make of bytes.
use crate::text::{first_word, put, put_hexed};
use crate::{faults, small};
use std::alloc::{AllocError, Global};
use xns_idp::{cycle_sum, decode};
use xns_small::{read_echo, read_error, read_exchange};
use xns_spp::{nearest, opening, read_header};

/// What the function of this name makes of the bytes.
pub fn tell(alloc: Global, name: &str, bytes: &[u8], text: &mut String) -> Result<(), AllocError> {
    match name {
        "bytes" => put_hexed(text, bytes),
        "sum" if bytes.len() % 2 == 0 => put(text, &cycle_sum(bytes)),
        "decode" => put(text, &decode(bytes)),
        "fault" => put_fault(text, bytes),
        "opening" => put(text, &opening(bytes)),
        "request" => small::request(alloc, text),
        "accept" => small::accept(alloc, bytes, text),
        _ => put_read(text, name, bytes),
    }
}

/// What the bytes are as the body of a packet.
fn put_read(text: &mut String, name: &str, bytes: &[u8]) -> Result<(), AllocError> {
    match name {
        "read_echo" => put(text, &read_echo(bytes)),
        "read_error" => put(text, &read_error(bytes)),
        "read_exchange" => put(text, &read_exchange(bytes)),
        "read_header" => put(text, &read_header(bytes)),
        _ => text.push_str("no such step"),
    }
}

/// Why bytes are no packet, and the words for that.
fn put_fault(text: &mut String, bytes: &[u8]) -> Result<(), AllocError> {
    match decode(bytes) {
        Ok(_) => text.push_str("none"),
        Err(fault) => faults::put(text, &fault, " in words: "),
    }
}

/// The number nearest to a number whose last 16 bits are a field.
pub fn near(words: &str, text: &mut String) -> Result<(), AllocError> {
    let (number, field) = first_word(words);
    let number = number.parse::<u32>().unwrap_or(0);
    let field = field.parse::<u16>().unwrap_or(0);
    put(text, &nearest(u64::from(number), field))
}
