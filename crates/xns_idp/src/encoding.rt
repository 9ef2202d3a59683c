//! Appends the bytes of a packet to a vector.

ghost use Rattle.std.specs.Prelude.{◌≡◌, ◌+◌, ◌<◌, ◌≤◌, ◌++◌, ◌∷◌, [], ◌%◌, if◌then◌else◌, length, drop, replicate, IsOk, OnOk, OnErr};
ghost use Rattle.std.specs.Prelude.{vec_len, vec_capacity};
ghost use Rattle.std.specs.Int.{w16, to_be_bytes};
ghost use Rattle.xns_idp.specs.Checksum.{words, cycle_checksum};
ghost use Rattle.xns_idp.specs.Packet.{most_data, address_bytes, packet_model, packet_spelling, with_data_behind};
ghost use Rattle.xns_idp.specs.Reading.{made_even};

use crate::checksum::cycle_sum;
use crate::packet::{HEADER, HEADER_BYTES, NO_SUM, Packet};
use std::alloc::{AllocError, Global};

/// The byte that is written behind an odd number of bytes.
pub(crate) const GARBAGE: u8 = 0;

/// Appends the bytes of a packet to `out`: its header, its body, and a garbage byte of 0 where the body's length is odd.
/// The checksum is computed where the packet is summed.
///
/// The only error is want of memory, after which `out` is as it was.
pub fn encode(alloc: Global, packet: &Packet<'_>, out: &mut Vec<u8>) -> Result<(), AllocError>
    requires { length packet.now.body.now ≤ most_data }
    ensures ok { OnOk result (out.new.items ≡ out.old.items ++ packet_spelling (packet_model packet.now)) }
    ensures err { OnErr result (out.new.items ≡ out.old.items) }
    // Memory is refused only where `out` has no room for the packet's bytes.
    ensures memory { OnErr result (vec_capacity out.old < vec_len out.old + made_even (30 + length packet.now.body.now)) }
    // `out` has no less room than before.
    ensures room { vec_capacity out.old ≤ vec_capacity out.new }
{
    encode_parts(alloc, packet, &[], out)
}

/// Appends the bytes of a packet whose data are `packet.body` and then `rest`, as `encode` does for the packet with
/// both of these joined. It serves a protocol that puts a header of its own before bytes that lie elsewhere.
///
/// The only error is want of memory, after which `out` is as it was.
#[inline(always)]
pub fn encode_parts(
    _alloc: Global,
    packet: &Packet<'_>,
    rest: &[u8],
    out: &mut Vec<u8>,
) -> Result<(), AllocError>
    requires { length packet.now.body.now + length rest.now ≤ most_data }
    ensures ok { OnOk result (out.new.items ≡ out.old.items ++ packet_spelling (with_data_behind (packet_model packet.now) rest.now)) }
    ensures err { OnErr result (out.new.items ≡ out.old.items) }
    // Memory is refused only where `out` has no room for the packet's bytes.
    ensures memory { OnErr result (vec_capacity out.old < vec_len out.old + made_even
        (30 + (length packet.now.body.now + length rest.now))) }
    // `out` has no less room than before.
    ensures room { vec_capacity out.old ≤ vec_capacity out.new }
{
    let size = packet.body.len() + rest.len();
    let start = out.len();
    out.reserve(HEADER_BYTES + size + size % 2)?;
    out.extend_from_slice(&header_bytes(packet, size))?;
    out.extend_from_slice(packet.body)?;
    out.extend_from_slice(rest)?;
    pad(size, out)?;
    put_checksum(&mut out.as_mut_slice()[start..], packet.summed);
    Ok(())
}

/// The bytes of the header before `size` bytes of data, with 0 in the place of the checksum.
#[inline(always)]
pub(crate) fn header_bytes(packet: &Packet<'_>, size: usize) -> [u8; HEADER_BYTES]
    requires { size ≤ most_data }
    ensures { result ≡ 0 ∷ 0 ∷ to_be_bytes w16 (30 + size) ++ (packet.now.control ∷ packet.now.kind ∷ []) ++ address_bytes packet.now.target
        ++ address_bytes packet.now.source }
{
    let [high, low] = (HEADER + size as u16).to_be_bytes();
    let [t0, t1, t2, t3, t4, t5, t6, t7, t8, t9, t10, t11] = packet.target.to_bytes();
    let [s0, s1, s2, s3, s4, s5, s6, s7, s8, s9, s10, s11] = packet.source.to_bytes();
    [
        0,
        0,
        high,
        low,
        packet.control,
        packet.kind,
        t0,
        t1,
        t2,
        t3,
        t4,
        t5,
        t6,
        t7,
        t8,
        t9,
        t10,
        t11,
        s0,
        s1,
        s2,
        s3,
        s4,
        s5,
        s6,
        s7,
        s8,
        s9,
        s10,
        s11,
    ]
}

/// Appends a garbage byte where the size is odd.
#[inline(always)]
fn pad(size: usize, out: &mut Vec<u8>) -> Result<(), AllocError>
    requires { vec_len out.old + size % 2 ≤ vec_capacity out.old }
    ensures ok { IsOk result }
    ensures items { out.new.items ≡ out.old.items ++ replicate (size % 2) 0 }
    ensures room { vec_capacity out.old ≤ vec_capacity out.new }
{
    if size % 2 == 1 {
        out.push(GARBAGE)?;
    }
    Ok(())
}

/// Puts the checksum field into a packet, in the place of its first two bytes: the checksum of the words after them, or 65535
/// where the packet is not summed.
#[inline(always)]
pub(crate) fn put_checksum(packet: &mut [u8], summed: bool)
    requires even { length packet.now % 2 ≡ 0 }
    requires field { 2 ≤ length packet.now }
    ensures { packet.new ≡ to_be_bytes w16 (if summed then cycle_checksum (words (drop 2 packet.old)) else 65535) ++ drop 2 packet.old }
{
    let field = if summed {
        cycle_sum(&packet[2..])
    } else {
        NO_SUM
    };
    packet[..2].copy_from_slice(&field.to_be_bytes());
}
