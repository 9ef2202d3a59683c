//! A packet, as it is taken.
use xns_idp::Packet;
use xns_spp::Header;

/// A sequenced packet: the internet packet that brought it, its header, and what it carries.
#[derive(Clone, Copy)]
pub struct Arrived<'a> {
    /// The internet packet.
    pub packet: &'a Packet<'a>,
    /// The header with which the body of the internet packet begins.
    pub header: &'a Header,
    /// What stands behind the header.
    pub content: &'a [u8],
}
