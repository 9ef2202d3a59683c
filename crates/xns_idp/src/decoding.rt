//! Reads the packet at the front of bytes.

ghost use Rattle.std.specs.Prelude.{◌≡◌, ◌+◌, ◌≤◌, List, ℕ, length, ◌++◌, IfOk, IfErr, Some, Ok};
ghost use Rattle.xns_idp.specs.Packet.{PacketModel, IsPacket, SpellsPacket, IsPacketAtFront, packet_model};
ghost use Rattle.xns_idp.specs.Reading.{packet_fault, packet_of, decode_model};

use crate::address::Address;
use crate::checksum::cycle_sum;
use crate::fault::IdpFault;
use crate::packet::{HEADER, HEADER_BYTES, MOST_PACKET, NO_SUM, Packet};
use crate::places::{read_address, read_word};

/// Reads the packet at the front of the bytes, and returns it with the number of bytes that it took: its length, and
/// one more for the garbage byte where the length is odd. The bytes behind them, such as padding of the link, are left
/// unread.
///
/// An `Err` is the first fault in the order of [`IdpFault`]. A checksum field of 65535 means that there is no checksum,
/// and is never [`IdpFault::BadSum`].
#[inline(always)]
pub fn decode(bytes: &[u8]) -> Result<(Packet<'_>, usize), IdpFault>
    // The result is the packet, read by the places of its fields, or the first fault of the bytes.
    ensures exact { decode_model result ≡ packet_of bytes.now }
    // The bytes that were taken spell the packet.
    ensures found { IfOk result (λ r. IsPacketAtFront bytes.now (packet_model r.0) r.1) }
    // A packet that a prefix of the bytes spells is read, whatever follows the prefix.
    ensures only { (p : PacketModel) (taken rest : List ℕ) → IsPacket p → SpellsPacket p taken → bytes.now ≡ taken ++ rest →
        decode_model result ≡ Ok (p, length taken) }
    // An error is the first fault of the bytes.
    ensures fault { IfErr result (λ f. packet_fault bytes.now ≡ Some f) }
{
    read_packet(bytes)
}

#[tactic(auto, unfolding(crate::specs::Reading::packet_of, crate::specs::Reading::packet_fault, crate::specs::Reading::packet_fields))]
#[inline(always)]
fn read_packet(bytes: &[u8]) -> Result<(Packet<'_>, usize), IdpFault>
    ensures { decode_model result ≡ packet_of bytes.now }
{
    let have = bytes.len();
    if have < HEADER_BYTES {
        return Err(IdpFault::Short { have });
    }
    let length = read_word(bytes, 2);
    if length < HEADER {
        return Err(IdpFault::LengthSmall { length });
    }
    if usize::from(length) > MOST_PACKET {
        return Err(IdpFault::LengthLarge { length });
    }
    let needed = usize::from(length + length % 2);
    if have < needed {
        return Err(IdpFault::Cut { needed, have });
    }
    let found = read_word(bytes, 0);
    if found != NO_SUM {
        let computed = cycle_sum(&bytes[2..needed]);
        if found != computed {
            return Err(IdpFault::BadSum { found, computed });
        }
    }
    let packet = Packet {
        summed: found != NO_SUM,
        control: bytes[4],
        kind: bytes[5],
        target: read_address(bytes, 6),
        source: read_address(bytes, 18),
        body: &bytes[HEADER_BYTES..usize::from(length)],
    };
    Ok((packet, needed))
}
