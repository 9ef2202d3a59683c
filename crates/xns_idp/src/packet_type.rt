//! The packet types of the protocols over the internet packet (XSIS 028112, Internet Datagram Protocol, Packet Type).

/// Echo.
pub const ECHO: u8 = 2;

/// Error.
pub const ERROR: u8 = 3;

/// Packet Exchange.
pub const PACKET_EXCHANGE: u8 = 4;

/// Sequenced Packet.
pub const SEQUENCED_PACKET: u8 = 5;
