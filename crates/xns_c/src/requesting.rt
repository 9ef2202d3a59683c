//! The asking side of a packet exchange.

ghost use Rattle.std.specs.Prelude.{◌≡◌, ◌≢◌, ◌+◌, ℕ, length, MatchOption, Ok};
ghost use Rattle.xns_idp.specs.Packet.{PacketModel, packet_model};
ghost use Rattle.xns_idp.specs.Reading.{packet_of};
ghost use Rattle.xns_small.specs.Exchange.{IsResponse};
ghost use Rattle.xns_c.specs.Exchange.{IsResponseIn, WritesRequest, asker};
ghost use Rattle.xns_c.specs.Results.{ok, nothing};
ghost use Rattle.xns_c.specs.Structs.{address_of_struct};

use crate::address::XnsAddress;
use crate::results::{BAD_ARGUMENT, NOTHING, OK, TOO_LONG};
use crate::sending::{BEFORE_EXCHANGED, MOST_EXCHANGED, put_exchange};
use std::alloc::Global;
use xns_idp::packet_type::PACKET_EXCHANGE;
use xns_idp::{HEADER_BYTES, Packet, decode};
use xns_small::{Exchange, read_exchange};

/// Puts the request packet of a packet exchange to the front of the buffer: to be sent, and sent again until the response comes
/// (XSIS 028112, Packet Exchange Protocol).
///
/// `TOO_LONG` for more than 540 bytes; else `BAD_ARGUMENT` where the target is the broadcast host; else `SHORT_BUFFER`, and `written` is
/// then how many bytes are needed; else `NO_MEMORY` where memory is refused.
#[unsafe(no_mangle)]
pub extern "C" fn xns_exchange_request(
    alloc: Global,
    own: &XnsAddress,
    target: &XnsAddress,
    id: u32,
    client: u16,
    bytes: &[u8],
    buffer: &mut [u8],
    written: &mut usize,
) -> u32
    ensures { WritesRequest (address_of_struct own.now) (address_of_struct target.now) id client bytes.now buffer.old buffer.new written.old written.new result }
{
    if bytes.len() > MOST_EXCHANGED {
        return TOO_LONG;
    }
    let target = target.address();
    if target.is_broadcast() {
        return BAD_ARGUMENT;
    }
    let exchange = Exchange {
        id,
        client,
        body: bytes,
    };
    put_exchange(alloc, own.address(), target, &exchange, buffer, written)
}

/// How many bytes the data of a response have, if the packet is the response to what was asked of `target` under this identifier.
#[tactic(auto, unfolding(xns_small::specs::Exchange::exchange_of))]
fn response_length(target: &XnsAddress, id: u32, packet: &Packet<'_>) -> Option<usize>
    ensures { MatchOption result (IsResponse (asker (address_of_struct target.now) id) (packet_model packet.now) → ⊥)
        (λ n. IsResponse (asker (address_of_struct target.now) id) (packet_model packet.now)
        × (BEFORE_EXCHANGED + n ≡ length packet.now.body.now)) }
{
    let source = packet.source;
    if packet.kind != PACKET_EXCHANGE
        || source.host != target.host
        || source.socket != target.socket
    {
        return None;
    }
    let exchange = read_exchange(packet.body).ok()?;
    if exchange.id != id {
        return None;
    }
    Some(exchange.body.len())
}

/// Whether the bytes are the response to what was asked of `target` under this identifier, and where its data stand in them. Network
/// numbers are not compared (XSIS 028112, Packet Exchange Protocol).
///
/// `NOTHING` where they are not.
#[unsafe(no_mangle)]
pub extern "C" fn xns_exchange_accept(
    target: &XnsAddress,
    id: u32,
    bytes: &[u8],
    body_at: &mut usize,
    body_length: &mut usize,
) -> u32
    ensures accepted { (x : PacketModel × ℕ) → packet_of bytes.now ≡ Ok x → IsResponse (asker (address_of_struct target.now) id) x.0
        → result ≡ ok }
    ensures response { result ≡ ok → IsResponseIn (asker (address_of_struct target.now) id) bytes.now body_at.new body_length.new }
    ensures nothing { result ≢ ok → result ≡ nothing }
    ensures unchanged { result ≢ ok → (body_at.new ≡ body_at.old) × (body_length.new ≡ body_length.old) }
{
    let Ok((packet, _)) = decode(bytes) else {
        return NOTHING;
    };
    let Some(length) = response_length(target, id, &packet) else {
        return NOTHING;
    };
    *body_at = HEADER_BYTES + BEFORE_EXCHANGED;
    *body_length = length;
    OK
}
