//! An Echo server, which complains of a damaged packet.

use crate::hex_lines::print_hex;
use crate::hosts::SERVER;
use std::io;
use xns_idp::{Address, decode};
use xns_small::{answer_echo, complain, error_number};

/// The server's address, at the Echo socket.
const ECHO_SERVER: Address = Address {
    socket: 2,
    ..SERVER
};

/// An Echo request to the server.
const RECEIVED: [u8; 34] = [
    0x53, 0x23, 0x00, 0x22, 0x00, 0x02, 0x00, 0x00, 0x00, 0x01, 0x00, 0x00, 0xaa, 0x00, 0x01, 0x02,
    0x00, 0x02, 0x00, 0x00, 0x00, 0x01, 0x00, 0x00, 0xaa, 0x00, 0x03, 0x04, 0x04, 0x00, 0x00, 0x01,
    0x48, 0x69,
];

/// Replies to the request as it came, and complains of the same packet with a byte changed on the way.
pub fn answer(rt: &HostRuntime) -> io::Result<()> {
    respond(rt, &RECEIVED)?;
    let mut damaged = RECEIVED;
    damaged[33] = 0x6a;
    respond(rt, &damaged)
}

/// The reply to a request, or the complaint of bytes that are no packet.
fn respond(rt: &HostRuntime, bytes: &[u8]) -> io::Result<()> {
    let alloc = rt.alloc();
    let response = match decode(bytes) {
        Ok((packet, _)) => answer_echo(alloc, ECHO_SERVER, &packet)?,
        Err(_) => complain(alloc, ECHO_SERVER, error_number::BAD_CHECKSUM, 0, bytes)?,
    };
    match response {
        Some(packet) => print_hex(rt, packet.as_slice()),
        None => Ok(()),
    }
}
