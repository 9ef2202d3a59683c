//! The flow of a packet.
ghost use Rattle.std.specs.Prelude.{◌≡◌};
ghost use Rattle.xns_idp.specs.Packet.{packet_model};
ghost use Rattle.xns_dump.specs.Flows.{flow_of as flow_of_packet};

use crate::flows::flow::Flow;
use crate::flows::place::Place;
use xns_idp::Packet;
use xns_spp::Header;

/// The flow of a packet: its two ends. Network numbers do not count.
pub fn flow_of(packet: &Packet<'_>, header: &Header) -> Flow
    ensures { result ≡ flow_of_packet (packet_model packet.now) header.now }
{
    Flow {
        source: Place {
            host: packet.source.host,
            socket: packet.source.socket,
            identifier: header.source_id,
        },
        target: Place {
            host: packet.target.host,
            socket: packet.target.socket,
            identifier: header.target_id,
        },
    }
}
