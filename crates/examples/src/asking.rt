//! The asking side of a packet exchange.

use crate::hex_lines::print_hex;
use crate::hosts::{CALLER, SERVER};
use std::io;
use xns_idp::{Packet, packet_type};
use xns_small::Requester;

/// Prints the request, and the bytes of the response once it comes.
pub fn ask(rt: &HostRuntime) -> io::Result<()> {
    let requester = Requester::request(rt.alloc(), CALLER, SERVER, 0x10002, 3, &[0xaa, 0xbb])?;
    print_hex(rt, requester.try_again())?;
    let response = Packet {
        summed: true,
        control: 0,
        kind: packet_type::PACKET_EXCHANGE,
        target: CALLER,
        source: SERVER,
        body: &[0, 1, 0, 2, 0, 4, 0xcc],
    };
    match requester.accept(&response) {
        Some(bytes) => print_hex(rt, bytes),
        None => Ok(()),
    }
}
