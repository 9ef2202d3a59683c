//! The limits of a capture.

/// A frame has at most so many captured bytes.
pub const MOST_FRAME_BYTES: u32 = 262_144;

/// A section describes at most so many interfaces.
pub const MOST_INTERFACES: usize = 65_536;

/// A capture has at most so many frames, whose numbers have 32 bits as Wireshark's do.
pub const MOST_FRAMES: usize = 4_294_967_295;

/// A block of a pcapng file that is read has at most so many bytes. Longer blocks that are not read are passed over.
pub const MOST_BLOCK_BYTES: u32 = 16_777_216;
