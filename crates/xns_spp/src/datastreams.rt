//! The datastream types of the closing exchange (XSIS 028112, Sequenced Packet Protocol, Termination).

/// The datastream type of End: the item asks for an end of the connection (XSIS 028112, Sequenced Packet Protocol, Termination).
pub const END: u8 = 254;

/// The datastream type of End reply: the item answers an [`END`] (XSIS 028112, Sequenced Packet Protocol, Termination).
pub const END_REPLY: u8 = 255;
