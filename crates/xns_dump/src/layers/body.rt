//! The body of a packet, read by the packet type.
ghost use Rattle.std.specs.Prelude.{◌≡◌};
ghost use Rattle.xns_idp.specs.Packet.{packet_model};
ghost use Rattle.xns_dump.specs.Layers.Body.{body_model, body_of, is_body_refused};

use xns_idp::Packet;
use xns_idp::packet_type::{ECHO, ERROR, PACKET_EXCHANGE, SEQUENCED_PACKET};
use xns_small::{Echo, ErrorReport, Exchange, SmallFault, read_echo, read_error, read_exchange};
use xns_spp::{Header, SppFault, read_header};

/// What the body of a packet says.
#[derive(Clone, Copy)]
pub(crate) enum Body<'a> {
    /// A request or reply of the Echo protocol.
    Echo(Echo<'a>),
    /// A report of the Error protocol.
    Error(ErrorReport<'a>),
    /// A packet exchange.
    Exchange(Exchange<'a>),
    /// The header of a sequenced packet, and what comes after it.
    Sequenced(Header, &'a [u8]),
    /// The body of a sequenced packet that is shorter than a header.
    NoHeader(SppFault),
    /// A body that is not what its packet type says.
    Refused(SmallFault),
    /// The data of any other packet type.
    Data(&'a [u8]),
}

impl Body<'_> {
    /// Whether the body is not what the packet type says.
    pub(crate) fn is_refused(&self) -> bool
        ensures { result ≡ is_body_refused (body_model self.now) }
    {
        match self {
            Body::NoHeader(_) | Body::Refused(_) => true,
            _ => false,
        }
    }
}

/// Reads the body of a packet.
#[tactic(auto, unfolding(crate::specs::Layers::Body::body_of))]
pub(crate) fn read_body<'a>(packet: &Packet<'a>) -> Body<'a>
    ensures { body_model result ≡ body_of (packet_model packet.now) }
{
    match packet.kind {
        ECHO => match read_echo(packet.body) {
            Ok(echo) => Body::Echo(echo),
            Err(fault) => Body::Refused(fault),
        },
        ERROR => match read_error(packet.body) {
            Ok(error) => Body::Error(error),
            Err(fault) => Body::Refused(fault),
        },
        PACKET_EXCHANGE => match read_exchange(packet.body) {
            Ok(exchange) => Body::Exchange(exchange),
            Err(fault) => Body::Refused(fault),
        },
        SEQUENCED_PACKET => match read_header(packet.body) {
            Ok((header, content)) => Body::Sequenced(header, content),
            Err(fault) => Body::NoHeader(fault),
        },
        _ => Body::Data(packet.body),
    }
}
