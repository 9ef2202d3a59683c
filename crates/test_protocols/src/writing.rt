//! What was read is written again.
use crate::text::{first_word, put_hexed, read_bytes};
use std::alloc::{AllocError, Global};
use xns_idp::{decode, encode};
use xns_small::{read_echo, read_error, read_exchange, write_echo, write_error, write_exchange};
use xns_spp::{read_header, write_header};

/// What is written behind some bytes: what other bytes are as the words' first says.
pub fn tell(alloc: Global, words: &str, text: &mut String) -> Result<(), AllocError> {
    let (kind, words) = first_word(words);
    let (front, words) = first_word(words);
    let mut out = read_bytes(alloc, front)?;
    write_read(alloc, kind, words, &mut out)?;
    put_hexed(text, &out)
}

/// Reads the bytes of words as something of a kind, and writes it behind others.
fn write_read(alloc: Global, kind: &str, words: &str, out: &mut Vec<u8>) -> Result<(), AllocError> {
    write_again(alloc, kind, &read_bytes(alloc, words)?, out)
}

/// Reads bytes as something of a kind, and writes it behind others. What cannot be read is not written.
fn write_again(
    alloc: Global,
    kind: &str,
    bytes: &[u8],
    out: &mut Vec<u8>,
) -> Result<(), AllocError> {
    match kind {
        "packet" => write_packet_again(alloc, bytes, out),
        "echo" => write_echo_again(alloc, bytes, out),
        "error" => write_error_again(alloc, bytes, out),
        "exchange" => write_exchange_again(alloc, bytes, out),
        _ => write_header_again(alloc, bytes, out),
    }
}

fn write_packet_again(alloc: Global, bytes: &[u8], out: &mut Vec<u8>) -> Result<(), AllocError> {
    match decode(bytes) {
        Ok((packet, _)) => encode(alloc, &packet, out),
        Err(_) => Ok(()),
    }
}

fn write_echo_again(alloc: Global, bytes: &[u8], out: &mut Vec<u8>) -> Result<(), AllocError> {
    match read_echo(bytes) {
        Ok(echo) if echo.body.len() <= 544 => write_echo(alloc, &echo, out),
        _ => Ok(()),
    }
}

fn write_error_again(alloc: Global, bytes: &[u8], out: &mut Vec<u8>) -> Result<(), AllocError> {
    match read_error(bytes) {
        Ok(report) => write_error(alloc, &report, out),
        Err(_) => Ok(()),
    }
}

fn write_exchange_again(alloc: Global, bytes: &[u8], out: &mut Vec<u8>) -> Result<(), AllocError> {
    match read_exchange(bytes) {
        Ok(exchange) if exchange.body.len() <= 540 => write_exchange(alloc, &exchange, out),
        _ => Ok(()),
    }
}

fn write_header_again(alloc: Global, bytes: &[u8], out: &mut Vec<u8>) -> Result<(), AllocError> {
    match read_header(bytes) {
        Ok((header, _)) => write_header(alloc, &header, out),
        Err(_) => Ok(()),
    }
}
