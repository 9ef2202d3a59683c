//! An internet packet read and written.

use crate::hex_lines::print_hex;
use std::io;
use xns_idp::{Packet, decode, encode};

/// An Echo request, with link padding behind it.
const RECEIVED: [u8; 40] = [
    0x53, 0x23, 0x00, 0x22, 0x00, 0x02, 0x00, 0x00, 0x00, 0x01, 0x00, 0x00, 0xaa, 0x00, 0x01, 0x02,
    0x00, 0x02, 0x00, 0x00, 0x00, 0x01, 0x00, 0x00, 0xaa, 0x00, 0x03, 0x04, 0x04, 0x00, 0x00, 0x01,
    0x48, 0x69, 0x00, 0x00, 0x00, 0x00, 0x00, 0x00,
];

/// Reads the packet, and writes it with half its data and a checksum of its own.
pub fn shorten(rt: &HostRuntime) -> io::Result<()> {
    match decode(&RECEIVED) {
        Err(fault) => println!(rt; "no packet: {fault}"),
        Ok((packet, taken)) => {
            println!(rt; "a packet of {taken} bytes, of type {}", packet.kind)?;
            let shorter = Packet {
                body: &packet.body[..packet.body.len() / 2],
                ..packet
            };
            let mut written = Vec::new(rt.alloc());
            encode(rt.alloc(), &shorter, &mut written)?;
            print_hex(rt, written.as_slice())
        }
    }
}
