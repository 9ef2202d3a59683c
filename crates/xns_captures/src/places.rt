//! Numbers at a place of a capture.
ghost use Rattle.std.specs.Prelude.{◌≡◌, ◌+◌, ◌≤◌, drop, length, slice_index};
ghost use Rattle.xns_captures.specs.Places.{count_at, long_in_order, word_in_order};

use crate::byte_order::ByteOrder;

/// The number of the two bytes at a place.
pub fn read_word(order: ByteOrder, bytes: &[u8], at: usize) -> u16
    requires { at + 2 ≤ length bytes.now }
    ensures { result ≡ word_in_order order bytes.now at }
{
    let pair = [bytes[at], bytes[at + 1]];
    order.pick(u16::from_be_bytes(pair), u16::from_le_bytes(pair))
}

/// The number of the four bytes at a place.
pub fn read_long(order: ByteOrder, bytes: &[u8], at: usize) -> u32
    requires { at + 4 ≤ length bytes.now }
    ensures { result ≡ long_in_order order bytes.now at }
{
    let four = [bytes[at], bytes[at + 1], bytes[at + 2], bytes[at + 3]];
    order.pick(u32::from_be_bytes(four), u32::from_le_bytes(four))
}

/// The number of the eight bytes at a place, of which the four that count most come first in either order.
pub fn read_count(order: ByteOrder, bytes: &[u8], at: usize) -> u64
    requires { at + 8 ≤ length bytes.now }
    ensures { result ≡ count_at order bytes.now at }
{
    u64::from(read_long(order, bytes, at)) * 4_294_967_296
        + u64::from(read_long(order, bytes, at + 4))
}

/// The byte at a place, or 0 behind the end.
pub fn byte_at(bytes: &[u8], at: usize) -> u8
    ensures { result ≡ slice_index bytes.now at }
{
    if at < bytes.len() { bytes[at] } else { 0 }
}

/// What stands behind so many bytes.
pub fn behind(bytes: &[u8], count: usize) -> &[u8]
    ensures { result.now ≡ drop count bytes.now }
{
    if bytes.len() <= count {
        &[]
    } else {
        &bytes[count..]
    }
}
