//! The checksum of bytes, computed block by block.

ghost use Rattle.std.specs.Prelude.{◌≡◌, ◌%◌, ◌<◌, ◌≤◌, length};
ghost use Rattle.std.specs.Simd.Lanes.{Each1};
ghost use Rattle.xns_idp.specs.Checksum.{words, cycle_checksum, sum_from};

use std::simd::prelude::*;

/// How many bytes a block has: those of 16 words. Doubled 16 times, a word weighs what it weighed before, modulo 65535.
const BLOCK: usize = 32;

/// How many bytes are summed at once at most. In their 64 blocks no lane of 16 bits overflows, and the weight of all
/// lanes fits into 32 bits.
const CHUNK: usize = 2048;

/// The weight of each byte of a block, modulo 65535: the first byte of a pair is the high one, and a word is doubled once for itself and
/// once for each word after it.
const WEIGHTS: [u32; BLOCK] = [
    256, 1, 128, 32768, 64, 16384, 32, 8192, 16, 4096, 8, 2048, 4, 1024, 2, 512, 1, 256, 32768,
    128, 16384, 64, 8192, 32, 4096, 16, 2048, 8, 1024, 4, 512, 2,
];

/// The checksum of the words of the bytes, modulo 65535 (XSIS 028112, Internet Datagram Protocol, Checksum). Of no bytes it is 0.
///
/// The number of bytes is even.
pub fn cycle_sum(bytes: &[u8]) -> u16
    requires { length bytes.now % 2 ≡ 0 }
    ensures { result ≡ cycle_checksum (words bytes.now) }
{
    let (front, chunks) = bytes.split_at(bytes.len() % CHUNK);
    let mut sum = part_sum(front);
    let mut left = chunks;
    while left.len() >= CHUNK {
        let (chunk, rest) = left.split_at(CHUNK);
        sum = (sum + part_sum(chunk)) % 65535;
        left = rest;
    }
    sum as u16
}

/// The checksum of the words of at most a chunk. Blocks are added lane by lane. The words before the first whole block
/// are a block of their own, with zeros in front.
fn part_sum(bytes: &[u8]) -> u32
    requires even { length bytes.now % 2 ≡ 0 }
    requires short { length bytes.now ≤ 2048 }
    ensures below { result < 65535 }
    ensures sum { result ≡ sum_from 0 (words bytes.now) % 65535 }
{
    let mut at = bytes.len() % BLOCK;
    let mut front = [0; BLOCK];
    front[BLOCK - at..].copy_from_slice(&bytes[..at]);
    let mut lanes = u16x32::splat(0);
    while at + BLOCK <= bytes.len() {
        lanes = lanes.strict_add(u8x32::from_slice(&bytes[at..]).cast::<u16>());
        at += BLOCK;
    }
    lane_sum(u8x32::from_array(front).cast::<u16>().strict_add(lanes))
}

/// The checksum of the 16 words that stand in lanes; the first lane of a pair is the high part of a word.
fn lane_sum(lanes: u16x32) -> u32
    requires { Each1 (λ x. x ≤ 16640) lanes }
    ensures below { result < 65535 }
    ensures sum { result ≡ sum_from 0 (words lanes) % 65535 }
{
    let weighed = lanes.cast::<u32>().strict_mul(u32x32::from_array(WEIGHTS));
    weighed.strict_reduce_sum() % 65535
}
