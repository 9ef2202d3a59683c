//! Sums the longest packets. The add-and-rotate loop of `bench/checksum_peer.rs` does the same.

use std::io;
use xns_idp::{MOST_PACKET, cycle_sum};

/// The bytes of the longest packet that are summed: all but the checksum field.
const SUMMED: usize = MOST_PACKET - 2;

/// How many packets are summed.
const PACKETS: usize = 1_000_000;

/// Sums the packets, and prints the total of the sums.
pub fn run(rt: &HostRuntime) -> io::Result<()> {
    let mut bytes = [0u8; SUMMED];
    let mut state = 1u32;
    for byte in &mut bytes {
        state = state.wrapping_mul(1664525).wrapping_add(1013904223);
        *byte = (state >> 24) as u8;
    }
    let mut total = 0u64;
    for i in 0..PACKETS {
        bytes[i % SUMMED] = (i % 251) as u8;
        total = total.wrapping_add(u64::from(cycle_sum(&bytes)));
    }
    println!(rt; "{PACKETS} packets, total {total}")
}
