//! Servers of Echo, complaints and a requester.
use crate::hexed::Hexed;
use crate::text::{first_word, put, put_hexed_if_any, read_bytes};
use std::alloc::{AllocError, Global};
use std::fmt::Write;
use test_setting::{CALLER, ECHO_SERVER, SERVER};
use xns_idp::{Address, MOST_DATA, decode};
use xns_small::error_number::{BAD_CHECKSUM, UNSPECIFIED};
use xns_small::{Requester, answer_echo, complain};

/// What is sent from an address about a packet, or only whether something is.
pub fn tell(alloc: Global, words: &str, text: &mut String) -> Result<(), AllocError> {
    let (name, words) = first_word(words);
    let (word, words) = first_word(words);
    let answer = answer(alloc, address(name), word, words)?;
    match word {
        "answered" => put(text, &answer.is_some()),
        _ => put_hexed_if_any(text, &answer),
    }
}

fn answer(
    alloc: Global,
    own: Address,
    word: &str,
    words: &str,
) -> Result<Option<Vec<u8>>, AllocError> {
    let packet = read_bytes(alloc, words)?;
    match word {
        "echo" | "answered" => reply(alloc, own, &packet),
        "complain" => complain(alloc, own, BAD_CHECKSUM, 0, &packet),
        _ => complain(alloc, own, UNSPECIFIED, 0, &packet),
    }
}

fn address(name: &str) -> Address {
    match name {
        "caller" => CALLER,
        _ => ECHO_SERVER,
    }
}

/// The reply of an Echo server to a packet, if there is one.
fn reply(alloc: Global, own: Address, packet: &[u8]) -> Result<Option<Vec<u8>>, AllocError> {
    match decode(packet) {
        Ok((packet, _)) if packet.body.len() <= MOST_DATA => answer_echo(alloc, own, &packet),
        _ => Ok(None),
    }
}

/// A caller that asks the server.
fn requester(alloc: Global) -> Result<Requester, AllocError> {
    Requester::request(alloc, CALLER, SERVER, 0x0001_0002, 3, &[0xaa, 0xbb])
}

/// The request, and what is sent when no response comes.
pub fn request(alloc: Global, text: &mut String) -> Result<(), AllocError> {
    let requester = requester(alloc)?;
    let first = Hexed(requester.try_again());
    let again = Hexed(requester.try_again());
    write!(text, "{first}\nit once more: {again}")
}

/// The bytes of a response that the requester accepts.
pub fn accept(alloc: Global, packet: &[u8], text: &mut String) -> Result<(), AllocError> {
    let requester = requester(alloc)?;
    match decode(packet) {
        Ok((packet, _)) => put(text, &requester.accept(&packet)),
        Err(_) => text.push_str("no packet"),
    }
}
