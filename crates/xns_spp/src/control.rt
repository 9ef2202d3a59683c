//! The bits of the connection control, and those of the two kinds of system packet that an end sends (XSIS 028112, Sequenced Packet
//! Protocol, Connection Control).

/// A packet without an item.
pub const SYSTEM: u8 = 128;

/// A reply is asked for.
pub const SEND_ACKNOWLEDGEMENT: u8 = 64;

/// The item is an attention item.
pub const ATTENTION: u8 = 32;

/// A message ends with the item.
pub const END_OF_MESSAGE: u8 = 16;

/// The connection control of a system packet that asks for a reply.
pub const PROBE: u8 = SYSTEM + SEND_ACKNOWLEDGEMENT;

/// The connection control of a reply.
pub const REPLY: u8 = SYSTEM;
