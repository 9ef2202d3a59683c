//! The asking side of a packet exchange.

ghost use Rattle.std.specs.Prelude.{◌≡◌, ◌≢◌, ◌<◌, ◌≤◌, drop, length, IfOk, MatchOption};
ghost use Rattle.xns_idp.specs.Packet.{broadcast, packet_model};
ghost use Rattle.xns_idp.specs.Reading.{long_at};
ghost use Rattle.xns_small.specs.Exchange.{IsResponse, requester_asking};

use crate::exchange::{Exchange, read_exchange, write_exchange};
use crate::sending::sent_packet;
use std::alloc::{AllocError, Global};
use std::marker::Model;
use xns_idp::packet_type::PACKET_EXCHANGE;
use xns_idp::{Address, Packet};

/// The asking side of one packet exchange (XSIS 028112, Packet Exchange Protocol). A requester holds the request, which
/// is sent until the response comes, and tells which packet is the response.
#[derive(Drop)]
pub struct Requester {
    asked: Address,
    id: u32,
    packet: Vec<u8>,
}

impl Model for Requester {
    ghost use Rattle.xns_small.specs.Exchange.{RequesterModel};

    ghost Value = { RequesterModel };

    ghost view = { λ r. record { asked = r.asked; id = r.id; packet = r.packet.items } };
}

impl Requester {
    /// Makes the request from `own` to `target`, with a transaction identifier, a client type and at most 540 bytes. The target is
    /// not the broadcast host. The only error is want of memory.
    #[tactic(auto, unfolding(crate::specs::Exchange::asking_packet))]
    pub fn request(
        alloc: Global,
        own: Address,
        target: Address,
        id: u32,
        client: u16,
        body: &[u8],
    ) -> Result<Requester, AllocError>
        requires size { length body.now ≤ 540 }
        requires one_host { target.host ≢ broadcast }
        ensures { IfOk result (λ requester. requester ≡ requester_asking own target id client body.now) }
    {
        let exchange = Exchange { id, client, body };
        let mut written = Vec::new(alloc);
        write_exchange(alloc, &exchange, &mut written)?;
        let packet = sent_packet(alloc, PACKET_EXCHANGE, own, target, written.as_slice())?;
        Ok(Requester {
            asked: target,
            id,
            packet,
        })
    }

    /// The bytes of the request packet, the same each time. They are sent, and sent again until the response comes.
    pub fn try_again(&self) -> &[u8]
        ensures { result.now ≡ self.now.packet }
    {
        self.packet.as_slice()
    }

    /// The bytes of the response.
    ///
    /// `None` means that the packet is not the response: it is of another type, has a body under 6 bytes, comes from another host
    /// or socket than was asked, or carries another identifier. Network numbers are not compared.
    pub fn accept<'a>(&self, packet: &Packet<'a>) -> Option<&'a [u8]>
        ensures { MatchOption result (IsResponse self.now (packet_model packet.now) → ⊥)
            (λ bytes. IsResponse self.now (packet_model packet.now) × (bytes.now ≡ drop 6 packet.now.body.now)) }
    {
        if packet.kind != PACKET_EXCHANGE || !packet.source.is_same_place(&self.asked) {
            return None;
        }
        let exchange = exchange_in(packet.body)?;
        if exchange.id != self.id {
            return None;
        }
        Some(exchange.body)
    }
}

/// The packet exchange that the bytes spell. `None` where they are under 6 bytes.
#[tactic(auto, unfolding(crate::specs::Exchange::exchange_of))]
fn exchange_in(body: &[u8]) -> Option<Exchange<'_>>
    ensures { MatchOption result (length body.now < 6)
        (λ exchange. (6 ≤ length body.now) × (exchange.id ≡ long_at body.now 0) × (exchange.body.now ≡ drop 6 body.now)) }
{
    read_exchange(body).ok()
}
