//! Internet packets.

ghost use Rattle.std.specs.Prelude.{◌≡◌, ◌≢◌, ◌+◌, ◌<◌, ◌≤◌, ◌%◌, ℕ, length, Ok, Err};
ghost use Rattle.xns_idp.specs.Checksum.{words, cycle_checksum};
ghost use Rattle.xns_idp.specs.Packet.{PacketModel, most_data, packet_spelling};
ghost use Rattle.xns_idp.specs.Reading.{made_even, packet_of};
ghost use Rattle.xns_idp.specs.declared.fault.IdpFault.{IdpFault};
ghost use Rattle.xns_c.specs.Given.{IsPut, as_byte};
ghost use Rattle.xns_c.specs.Results.{ok, bad_argument, short_buffer, too_long, idp_fault_number};
ghost use Rattle.xns_c.specs.Structs.{address_of_struct};
ghost use Rattle.xns_c.specs.Views.{packet_in, packet_with};

use crate::address::XnsAddress;
use crate::flag::as_byte;
use crate::packet::XnsPacket;
use crate::results::{BAD_ARGUMENT, OK, SHORT_BUFFER, TOO_LONG, idp_fault_number};
use crate::sending::packet_size;
use xns_idp::{HEADER_BYTES, MOST_DATA, Packet, cycle_sum, decode, encode_into};

/// The checksum of the words of the bytes, or `BAD_ARGUMENT` for an odd number of bytes
/// (XSIS 028112, Internet Datagram Protocol, Checksum).
#[unsafe(no_mangle)]
pub extern "C" fn xns_checksum(bytes: &[u8], sum: &mut u16) -> u32
    ensures summed { length bytes.now % 2 ≡ 0 → (result ≡ ok) × (sum.new ≡ cycle_checksum (words bytes.now)) }
    ensures odd { length bytes.now % 2 ≢ 0 → (result ≡ bad_argument) × (sum.new ≡ sum.old) }
{
    if bytes.len() % 2 != 0 {
        return BAD_ARGUMENT;
    }
    *sum = cycle_sum(bytes);
    OK
}

/// What C is told of a packet that was read, and that has so many bytes.
fn told(found: &Packet<'_>, taken: usize) -> XnsPacket
    ensures flag { result.summed ≡ as_byte found.now.summed }
    ensures fields { (result.control ≡ found.now.control) × (result.kind ≡ found.now.kind) }
    ensures ends { (address_of_struct result.target ≡ found.now.target) × (address_of_struct result.source ≡ found.now.source) }
    ensures place { (result.body_at ≡ 30) × (result.body_length ≡ length found.now.body.now) × (result.taken ≡ taken) }
{
    XnsPacket {
        summed: as_byte(found.summed),
        control: found.control,
        kind: found.kind,
        target: XnsAddress::of(&found.target),
        source: XnsAddress::of(&found.source),
        body_at: HEADER_BYTES,
        body_length: found.body.len(),
        taken,
    }
}

/// Reads the packet at the front of the bytes, or returns the number of the first fault
/// (XSIS 028112, Internet Datagram Protocol, Packet Format).
#[unsafe(no_mangle)]
pub extern "C" fn xns_decode(bytes: &[u8], packet: &mut XnsPacket) -> u32
    ensures read { result ≡ ok → packet_of bytes.now ≡ Ok (packet_in packet.new bytes.now, packet.new.taken) }
    ensures good { (x : PacketModel × ℕ) → packet_of bytes.now ≡ Ok x → result ≡ ok }
    // The data begin at byte 30, and end within the bytes.
    ensures within { result ≡ ok → (packet.new.body_at ≡ 30) × (30 + packet.new.body_length ≤ length bytes.now) }
    ensures flag { result ≡ ok → packet.new.summed ≤ 1 }
    ensures fault { (f : IdpFault) → packet_of bytes.now ≡ Err f → result ≡ idp_fault_number f }
    ensures unchanged { result ≢ ok → packet.new ≡ packet.old }
{
    match decode(bytes) {
        Ok((found, taken)) => {
            *packet = told(&found, taken);
            OK
        }
        Err(fault) => idp_fault_number(fault),
    }
}

/// Puts the bytes of a packet with these data to the front of the buffer. Of the packet the last three fields are not read.
///
/// `TOO_LONG` for more than 546 bytes of data; else `SHORT_BUFFER`, and `written` is then how many bytes are needed. It takes no memory.
#[unsafe(no_mangle)]
pub extern "C" fn xns_encode(
    packet: &XnsPacket,
    body: &[u8],
    buffer: &mut [u8],
    written: &mut usize,
) -> u32
    ensures written { length body.now ≤ most_data → made_even (30 + length body.now) ≤ length buffer.old →
        (result ≡ ok) × IsPut (packet_spelling (packet_with packet.now body.now)) buffer.old buffer.new written.new }
    ensures long { most_data < length body.now → result ≡ too_long }
    ensures short { length body.now ≤ most_data → length buffer.old < made_even (30 + length body.now) → (result ≡ short_buffer)
        × (written.new ≡ made_even (30 + length body.now)) }
    ensures unchanged { result ≢ ok → buffer.new ≡ buffer.old }
    ensures untold { result ≢ ok → result ≢ short_buffer → written.new ≡ written.old }
{
    let size = body.len();
    if size > MOST_DATA {
        return TOO_LONG;
    }
    let needed = packet_size(size);
    if buffer.len() < needed {
        *written = needed;
        return SHORT_BUFFER;
    }
    let whole = Packet {
        summed: packet.summed != 0,
        control: packet.control,
        kind: packet.kind,
        target: packet.target.address(),
        source: packet.source.address(),
        body,
    };
    *written = encode_into(&whole, buffer);
    OK
}
