//! The sequenced packet that an Error packet quotes.

ghost use Rattle.std.specs.Prelude.{◌≡◌};
ghost use Rattle.xns_host.specs.Quotes.{is_unheard, quoted_packet};

use xns_idp::Address;
use xns_idp::packet_type::SEQUENCED_PACKET;
use xns_idp::places::{read_address, read_word};
use xns_small::error_number::{NO_RESOURCES, NO_SUCH_SOCKET};
use xns_small::read_error;

/// How many bytes an Error packet quotes: the internet header and that of a sequenced packet.
const QUOTED: usize = 42;

/// What an Error packet says of a sequenced packet that nobody hears, and quotes of it.
#[derive(Clone, Copy, Debug, PartialEq, Eq)]
pub struct Quote {
    /// The error number: why nobody hears it.
    pub error: u16,
    /// To whom it was sent.
    pub target: Address,
    /// By whom.
    pub source: Address,
    /// The identifier of the one who sent it.
    pub source_id: u16,
    /// The identifier of the one to whom it was sent; 0 where the sender did not know it.
    pub target_id: u16,
    /// The packet's sequence number.
    pub sequence: u16,
}

/// Whether an error number says that nobody hears the packet that is quoted: its destination has no such socket, or no resources for it.
fn is_unheard(number: u16) -> bool
    ensures { result ≡ is_unheard number }
{
    number == NO_SUCH_SOCKET || number == NO_RESOURCES
}

/// What the body of an Error packet quotes. A `None`: its number does not say that nobody hears the packet, or it quotes no sequenced packet.
pub fn quoted_packet(body: &[u8]) -> Option<Quote>
    ensures { result ≡ quoted_packet body.now }
{
    let report = read_error(body).ok()?;
    if !is_unheard(report.number) {
        return None;
    }
    let quoted = report.quoted;
    if quoted.len() < QUOTED || quoted[5] != SEQUENCED_PACKET {
        return None;
    }
    Some(Quote {
        error: report.number,
        target: read_address(quoted, 6),
        source: read_address(quoted, 18),
        source_id: read_word(quoted, 32),
        target_id: read_word(quoted, 34),
        sequence: read_word(quoted, 36),
    })
}
