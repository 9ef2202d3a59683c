//! The header of sequenced packets, and who opens a connection.

ghost use Rattle.std.specs.Prelude.{◌≡◌, ◌≢◌, ◌<◌, ◌≤◌, drop, length, Some, None};
ghost use Rattle.xns_spp.specs.Header.{header_of, header_spelling};
ghost use Rattle.xns_spp.specs.Packet.{opener};
ghost use Rattle.xns_c.specs.Given.{IsPut, TellsFront};
ghost use Rattle.xns_c.specs.Results.{ok, nothing, short_buffer};
ghost use Rattle.xns_c.specs.Structs.{address_of_struct};

use crate::address::{XnsAddress, tell_end};
use crate::front::put_front;
use crate::results::{NOTHING, OK, SHORT};
use crate::told::tell;
use xns_spp::{Header, opening, read_header};

/// Reads the header at the front of a packet's data; the rest of the data follows from byte 12 on. `SHORT` for fewer than
/// 12 bytes (XSIS 028112, Sequenced Packet Protocol).
#[tactic(auto, unfolding(xns_spp::specs::Header::header_of))]
#[unsafe(no_mangle)]
pub extern "C" fn xns_header_read(body: &[u8], header: &mut Header) -> u32
    ensures { TellsFront 12 (header_of body.now) (λ h. (h, drop 12 body.now)) body.now header.old header.new result }
{
    let told = read_header(body).map(|found| found.0);
    tell(told.ok(), SHORT, header)
}

/// Puts the twelve bytes of a header to the front of the buffer. `SHORT_BUFFER`, and `written` is then 12.
#[unsafe(no_mangle)]
pub extern "C" fn xns_header_write(header: &Header, buffer: &mut [u8], written: &mut usize) -> u32
    ensures written { 12 ≤ length buffer.old → (result ≡ ok) × IsPut (header_spelling header.now) buffer.old buffer.new written.new }
    ensures short { length buffer.old < 12 → (result ≡ short_buffer) × (written.new ≡ 12) × (buffer.new ≡ buffer.old) }
{
    put_front(&header.to_bytes(), buffer, written)
}

/// Who opens a connection by these bytes, and with which identifier. `NOTHING` where nobody does
/// (XSIS 028112, Sequenced Packet Protocol, Connection Identifiers).
#[unsafe(no_mangle)]
pub extern "C" fn xns_opening(bytes: &[u8], peer: &mut XnsAddress, peer_id: &mut u16) -> u32
    ensures opens { result ≡ ok → opener bytes.now ≡ Some (address_of_struct peer.new, peer_id.new) }
    ensures none { result ≢ ok → (result ≡ nothing) × (opener bytes.now ≡ None) }
    ensures unchanged { result ≢ ok → (peer.new ≡ peer.old) × (peer_id.new ≡ peer_id.old) }
{
    let Some(opener) = opening(bytes) else {
        return NOTHING;
    };
    tell_end(opener, peer, peer_id);
    OK
}
