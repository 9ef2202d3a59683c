//! The side of a packet exchange that answers (XSIS 028112, Packet Exchange Protocol).

ghost use Rattle.std.specs.Prelude.{◌≡◌, MatchOption};
ghost use Rattle.xns_idp.specs.Packet.{packet_model};
ghost use Rattle.xns_idp.specs.Reading.{long_at, word_at};
ghost use Rattle.xns_c.specs.Exchange.{IsAsked, WritesResponse};
ghost use Rattle.xns_c.specs.Structs.{address_of_struct};

use crate::address::XnsAddress;
use crate::results::{NOTHING, TOO_LONG};
use crate::sending::{MOST_EXCHANGED, put_exchange};
use std::alloc::Global;
use xns_idp::packet_type::PACKET_EXCHANGE;
use xns_idp::{Packet, decode};
use xns_small::{Exchange, read_exchange};

/// The identifier and the client type of a packet, if it asks this socket.
#[tactic(auto, unfolding(xns_small::specs::Exchange::exchange_of))]
fn asked_as(own: &XnsAddress, packet: &Packet<'_>) -> Option<(u32, u16)>
    ensures { MatchOption result (IsAsked (address_of_struct own.now) (packet_model packet.now) → ⊥)
        (λ x. IsAsked (address_of_struct own.now) (packet_model packet.now) × (x.0 ≡ long_at packet.now.body.now 0)
        × (x.1 ≡ word_at packet.now.body.now 4)) }
{
    if packet.kind != PACKET_EXCHANGE || packet.target.socket != own.socket {
        return None;
    }
    if packet.target.host != own.host && !packet.target.is_broadcast() {
        return None;
    }
    if packet.source.is_broadcast() {
        return None;
    }
    let exchange = read_exchange(packet.body).ok()?;
    Some((exchange.id, exchange.client))
}

/// Puts the response to a request of a packet exchange to the front of the buffer: with the request's identifier and client type it goes to
/// where the request came from (XSIS 028112, Packet Exchange Protocol).
///
/// `TOO_LONG` for more than 540 bytes; else `NOTHING` where the request is no packet of a packet exchange to `own` from one host; else
/// `SHORT_BUFFER`, and `written` is then how many bytes are needed; else `NO_MEMORY` where memory is refused.
#[unsafe(no_mangle)]
pub extern "C" fn xns_exchange_reply(
    alloc: Global,
    own: &XnsAddress,
    request: &[u8],
    bytes: &[u8],
    buffer: &mut [u8],
    written: &mut usize,
) -> u32
    ensures { WritesResponse (address_of_struct own.now) request.now bytes.now buffer.old buffer.new written.old written.new result }
{
    if bytes.len() > MOST_EXCHANGED {
        return TOO_LONG;
    }
    let Ok((packet, _)) = decode(request) else {
        return NOTHING;
    };
    let Some((id, client)) = asked_as(own, &packet) else {
        return NOTHING;
    };
    let exchange = Exchange {
        id,
        client,
        body: bytes,
    };
    put_exchange(
        alloc,
        own.address(),
        packet.source,
        &exchange,
        buffer,
        written,
    )
}
