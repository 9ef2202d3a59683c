//! Packets that go out.

ghost use Rattle.std.specs.Prelude.{◌≡◌, ◌+◌, ◌<◌, ◌≤◌, length};
ghost use Rattle.xns_idp.specs.Packet.{most_data};
ghost use Rattle.xns_idp.specs.Reading.{made_even};
ghost use Rattle.xns_small.specs.Exchange.{asking_packet};
ghost use Rattle.xns_small.specs.Sending.{sent_packet};
ghost use Rattle.xns_c.specs.Buffers.{WritesWhereRoom};
ghost use Rattle.xns_c.specs.Exchange.{most_exchanged, exchange_size};
ghost use Rattle.xns_c.specs.Given.{IsPut};

use crate::results::{NO_MEMORY, OK, SHORT_BUFFER};
use std::alloc::Global;
use xns_idp::packet_type::PACKET_EXCHANGE;
use xns_idp::{Address, HEADER_BYTES, Packet, encode_into};
use xns_small::{Exchange, write_exchange};

/// A Packet Exchange packet has so many bytes before its own data.
pub const BEFORE_EXCHANGED: usize = 6;

/// At most so many bytes of its own data.
pub const MOST_EXCHANGED: usize = 540;

/// How many bytes a packet with so many bytes of data has, with the garbage byte.
pub fn packet_size(count: usize) -> usize
    requires { count ≤ most_data }
    ensures { result ≡ made_even (30 + count) }
{
    HEADER_BYTES + count + count % 2
}

/// Puts the bytes of a summed packet with these data, of transport control 0, to the front of a buffer that has room for them, and says how
/// many they are.
pub fn put_packet(
    kind: u8,
    source: Address,
    target: Address,
    body: &[u8],
    buffer: &mut [u8],
) -> usize
    requires short { length body.now ≤ most_data }
    requires room { made_even (30 + length body.now) ≤ length buffer.old }
    ensures { IsPut (sent_packet kind source target body.now) buffer.old buffer.new result }
{
    let packet = Packet::new(kind, source, target, body);
    encode_into(&packet, buffer)
}

/// Puts the packet of a request or response of a packet exchange to the front of the buffer.
///
/// `SHORT_BUFFER`, and `written` is then how many bytes are needed; else `NO_MEMORY` where memory is refused.
#[tactic(auto, unfolding(xns_small::specs::Exchange::asking_packet))]
pub fn put_exchange(
    alloc: Global,
    source: Address,
    target: Address,
    exchange: &Exchange<'_>,
    buffer: &mut [u8],
    written: &mut usize,
) -> u32
    requires { length exchange.now.body.now ≤ most_exchanged }
    ensures { WritesWhereRoom (asking_packet source target exchange.now.id exchange.now.client exchange.now.body.now)
        (exchange_size (length exchange.now.body.now)) buffer.old buffer.new written.old written.new result }
{
    let needed = packet_size(BEFORE_EXCHANGED + exchange.body.len());
    if buffer.len() < needed {
        *written = needed;
        return SHORT_BUFFER;
    }
    let mut body = Vec::new(alloc);
    match write_exchange(alloc, exchange, &mut body) {
        Ok(()) => {
            *written = put_packet(PACKET_EXCHANGE, source, target, body.as_slice(), buffer);
            OK
        }
        Err(_) => NO_MEMORY,
    }
}
