//! Packets, and how many bytes they have at most.

ghost use Rattle.std.specs.Prelude.{◌≡◌};
ghost use Rattle.xns_idp.specs.Packet.{IsPacket, new_packet, packet_model};

use crate::address::Address;
use crate::known::known_bytes;

/// The length field of a packet that is a header alone.
pub(crate) const HEADER: u16 = 30;

/// How many bytes a header has.
pub const HEADER_BYTES: usize = HEADER as usize;

/// How many bytes of data a packet has at most (XSIS 028112, Internet Datagram Protocol; the limit is this project's, to bound memory).
pub const MOST_DATA: usize = 546;

/// How many bytes a packet has at most, those of its header and its data without the garbage byte (XSIS 028112, Internet
/// Datagram Protocol; the limit is this project's, to bound memory).
pub const MOST_PACKET: usize = HEADER_BYTES + MOST_DATA;

/// The checksum field of a packet without a checksum.
pub(crate) const NO_SUM: u16 = 65535;

/// A packet, whose body is lent from the bytes that it was read from (XSIS 028112, Internet Datagram Protocol, Packet
/// Format).
#[derive(Clone, Copy, Debug, PartialEq, Eq)]
pub struct Packet<'a> {
    /// Whether the packet has a checksum; without one the field is 65535.
    pub summed: bool,
    /// The transport control byte, kept whole: the hop count and reserved bits.
    pub control: u8,
    /// The packet type: 1 Routing Information, 2 Echo, 3 Error, 4 Packet Exchange, 5 Sequenced Packet, or another.
    pub kind: u8,
    /// The destination.
    pub target: Address,
    /// The source.
    pub source: Address,
    /// The data, at most [`MOST_DATA`] bytes; a garbage byte after an odd number of them is no part of it.
    pub body: &'a [u8],
}

impl<'a> Packet<'a> {
    /// A packet to be sent: it has a checksum, and its transport control is 0.
    #[inline(always)]
    pub fn new(kind: u8, source: Address, target: Address, body: &'a [u8]) -> Packet<'a>
        ensures { packet_model result ≡ new_packet kind source target body.now }
    {
        Packet {
            summed: true,
            control: 0,
            kind,
            target,
            source,
            body,
        }
    }

    /// Does nothing; says to a proof that the numbers of a packet are within their types' bounds.
    pub fn known(&self)
        ensures { IsPacket (packet_model self.now) }
    {
        self.target.known();
        self.source.known();
        let _numbers = (self.control, self.kind);
        known_bytes(self.body);
    }
}
