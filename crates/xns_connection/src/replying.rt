//! What a reply of the peer says of what it lacks.

ghost use Rattle.std.specs.Prelude.{◌≡◌};
ghost use Rattle.xns_spp.specs.Held.{StandsFor};
ghost use Rattle.xns_spp.specs.State.{State};
ghost use Rattle.xns_connection.specs.Replying.{is_missing, is_reply, reply_of};

use xns_spp::control::{SEND_ACKNOWLEDGEMENT, SYSTEM};
use xns_spp::{Endpoint, Header, SppPacket};

/// Whether a packet with this header is a reply: a system packet that asks for none.
fn is_reply(header: Header) -> bool
    ensures { result ≡ is_reply header }
{
    header.control & SYSTEM != 0
        && header.control & SEND_ACKNOWLEDGEMENT == 0
        && header.target_id != 0
}

/// Whether this acknowledge number is that of an item that is out.
fn is_missing(endpoint: &Endpoint, acknowledge: u16) -> bool
    ensures { (s : State) → StandsFor endpoint.now s → result ≡ is_missing s acknowledge }
{
    endpoint.is_out(acknowledge) && endpoint.is_out(acknowledge.wrapping_add(1))
}

/// The allocation number of a reply by which the peer lacks the first item that is out. `None`: the packet is another.
pub fn reply_of(endpoint: &Endpoint, packet: &SppPacket) -> Option<u16>
    ensures { (s : State) → StandsFor endpoint.now s → result ≡ reply_of s packet.now.header }
{
    let header = packet.header;
    if is_reply(header) && is_missing(endpoint, header.acknowledge) {
        Some(header.allocation)
    } else {
        None
    }
}
