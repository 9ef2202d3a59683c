//! Writes and reads the longest packets. `bench/c_codec.c` does the same through the library for C.

use std::io;
use test_setting::{CALLER, SERVER};
use xns_idp::{MOST_DATA, MOST_PACKET, Packet, decode, encode_into, packet_type};

/// How many packets are written and read.
const PACKETS: usize = 1_000_000;

/// A number in which each field and the checksum has a part.
fn mark(bytes: &[u8], index: usize) -> u64 {
    let (Ok((packet, taken)), [high, low, ..]) = (decode(bytes), bytes) else {
        return 0;
    };
    let byte = packet.body.get(index).copied().unwrap_or(0);
    let sum = u64::from(*high) * 256 + u64::from(*low);
    sum + u64::from(byte) + taken as u64 + u64::from(packet.source.socket)
}

/// Writes and reads the packets, and prints the total of their marks.
pub fn run(rt: &HostRuntime) -> io::Result<()> {
    let mut body = [0u8; MOST_DATA];
    let mut bytes = [0u8; MOST_PACKET];
    let mut total = 0u64;
    for i in 0..PACKETS {
        body[i % MOST_DATA] = (i % 251) as u8;
        let packet = Packet {
            summed: true,
            control: 0,
            kind: packet_type::SEQUENCED_PACKET,
            target: SERVER,
            source: CALLER,
            body: &body,
        };
        let written = encode_into(&packet, &mut bytes);
        total = total.wrapping_add(mark(&bytes[..written], i % MOST_DATA));
    }
    println!(rt; "{PACKETS} packets, total {total}")
}
