//! Puts the bytes of a packet at the front of a slice, without taking memory.

ghost use Rattle.std.specs.Prelude.{◌≡◌, ◌+◌, ◌≤◌, ◌++◌, ℕ, length, take, drop};
ghost use Rattle.xns_idp.specs.Packet.{most_data, packet_model, packet_spelling};
ghost use Rattle.xns_idp.specs.Reading.{made_even};

use crate::encoding::{GARBAGE, header_bytes, put_checksum};
use crate::packet::Packet;

/// Puts bytes behind the first `at` of a slice, and returns where they end.
#[inline(always)]
fn put_behind(out: &mut [u8], at: usize, bytes: &[u8]) -> usize
    requires { at + length bytes.now ≤ length out.old }
    ensures end { result ≡ at + length bytes.now }
    ensures put { take result out.new ≡ take at out.old ++ bytes.now }
    ensures behind { (place : ℕ) → at + length bytes.now ≤ place → drop place out.new ≡ drop place out.old }
    ensures length { length out.new ≡ length out.old }
    ensures within { result ≤ length out.new }
{
    let end = at + bytes.len();
    out[at..end].copy_from_slice(bytes);
    end
}

/// Puts the bytes of a packet, as [`crate::encode`] writes them, at the front of `out`, and returns how many there are.
/// It takes no memory. The bytes of `out` behind them stay as they were.
pub fn encode_into(packet: &Packet<'_>, out: &mut [u8]) -> usize
    requires short { length packet.now.body.now ≤ most_data }
    requires room { made_even (30 + length packet.now.body.now) ≤ length out.old }
    ensures { (result ≡ length (packet_spelling (packet_model packet.now)))
        × (out.new ≡ packet_spelling (packet_model packet.now) ++ drop (length (packet_spelling (packet_model packet.now))) out.old) }
{
    let end = put_behind(out, 0, &header_bytes(packet, packet.body.len()));
    let end = put_behind(out, end, packet.body);
    let end = put_behind(out, end, &[GARBAGE][..packet.body.len() % 2]);
    put_checksum(&mut out[..end], packet.summed);
    end
}
