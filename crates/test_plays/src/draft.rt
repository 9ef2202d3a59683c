//! Packets that are given to an end, from their bodies: a header and data.
use hex::FromHexError;
use std::alloc::{AllocError, Global};
use test_setting::{CALLER, SERVER};
use xns_idp::{MOST_DATA, Packet, encode, packet_type};
use xns_spp::Bytes;

/// How many bytes a header has.
const HEADER: usize = 12;

/// Where the control byte stands in a header.
pub const CONTROL: usize = 0;

/// Where the datastream type stands in a header, the other field of one byte.
pub const STREAM: usize = 1;

/// Where the source's identifier begins.
pub const SOURCE: usize = 2;

/// Where the target's identifier begins.
pub const TARGET: usize = 4;

/// Where the sequence number begins.
pub const SEQUENCE: usize = 6;

/// Where the acknowledge number begins.
pub const ACKNOWLEDGE: usize = 8;

/// Where the allocation begins.
pub const ALLOCATION: usize = 10;

/// The bytes that hex digits stand for; none where they are no digits.
pub fn read_hex(alloc: Global, digits: &str) -> Result<Vec<u8>, AllocError> {
    match hex::decode(alloc, digits) {
        Ok(bytes) => Ok(bytes),
        Err(FromHexError::OutOfMemory) => Err(AllocError),
        Err(_) => Ok(Vec::new(alloc)),
    }
}

fn push_zeros(bytes: &mut Vec<u8>, count: u16) -> Result<(), AllocError> {
    for _ in 0..count {
        bytes.push(0)?;
    }
    Ok(())
}

/// Adds the bytes of a word: hex digits, or `=` and how many bytes of 0.
fn push_word(alloc: Global, bytes: &mut Vec<u8>, word: &str) -> Result<(), AllocError> {
    match word.strip_prefix("=") {
        Some(count) => push_zeros(bytes, count.parse::<u16>().unwrap_or(0)),
        None => bytes.extend_from_slice(read_hex(alloc, word)?.as_slice()),
    }
}

/// The body that words spell.
pub fn read_body(alloc: Global, words: &str) -> Result<Vec<u8>, AllocError> {
    let mut bytes = Vec::new(alloc);
    for word in words.split(" ") {
        push_word(alloc, &mut bytes, word)?;
    }
    Ok(bytes)
}

/// Whether a body is as long as a header.
pub fn has_header(body: &[u8]) -> bool {
    body.len() >= HEADER
}

/// The packet without a sum that has this body and goes from the initiator to the responder.
pub fn packet_of(alloc: Global, body: &[u8]) -> Result<Bytes, AllocError> {
    let mut bytes = Vec::new(alloc);
    if body.len() <= MOST_DATA {
        let packet = Packet {
            summed: false,
            control: 0,
            kind: packet_type::SEQUENCED_PACKET,
            target: SERVER,
            source: CALLER,
            body,
        };
        encode(alloc, &packet, &mut bytes)?;
    }
    Ok(Bytes::new(bytes))
}

/// Changes the byte in this place, where there is one.
pub fn put_byte(bytes: &mut [u8], place: usize, byte: u8) {
    if let Some(old) = bytes.get_mut(place) {
        *old = byte;
    }
}

/// Changes the two bytes from this place on.
pub fn put_number(bytes: &mut [u8], place: usize, number: u16) {
    let [high, low] = number.to_be_bytes();
    put_byte(bytes, place, high);
    put_byte(bytes, place.saturating_add(1), low);
}

/// The number that the two bytes from this place on are; 0 where there are none.
pub fn number_at(bytes: &[u8], place: usize) -> u16 {
    match bytes.get(place..) {
        Some([high, low, ..]) => u16::from_be_bytes([*high, *low]),
        _ => 0,
    }
}
