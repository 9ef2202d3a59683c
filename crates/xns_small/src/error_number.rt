//! What the error numbers of an Error packet mean (XSIS 028112, Error Protocol). Other numbers are kept as they are.

/// An unspecified error at the destination.
pub const UNSPECIFIED: u16 = 0;

/// The checksum is wrong, or the packet has some other serious inconsistency, seen at the destination.
pub const BAD_CHECKSUM: u16 = 1;

/// The destination host has no such socket.
pub const NO_SUCH_SOCKET: u16 = 2;

/// The destination has no resources for the packet.
pub const NO_RESOURCES: u16 = 3;

/// An unspecified error in transit, before the destination was reached.
pub const UNSPECIFIED_IN_TRANSIT: u16 = 512;

/// The checksum is wrong, seen in transit.
pub const BAD_CHECKSUM_IN_TRANSIT: u16 = 513;

/// The destination host cannot be reached from here.
pub const HOST_UNREACHABLE: u16 = 514;

/// The packet has made too many hops.
pub const TOO_MANY_HOPS: u16 = 515;

/// The packet is too large to be forwarded; the parameter is the greatest length in bytes.
pub const PACKET_TOO_LARGE: u16 = 516;
