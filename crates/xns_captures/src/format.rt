//! What is known of a capture between two of its parts.
use crate::byte_order::ByteOrder;

/// What the parts of a capture are, behind those that came before.
#[derive(Clone, Copy, Debug, PartialEq, Eq)]
pub enum Format {
    /// Nothing was read yet.
    Unread,
    /// Records of a classic capture, all of one link type, with times in nanoseconds or in microseconds.
    Records {
        order: ByteOrder,
        link: u16,
        is_nano: bool,
    },
    /// Blocks of a section.
    Blocks {
        order: ByteOrder,
    },
    /// Blocks of a section, behind a long one that is passed over: it has so many bytes in all, of which some are left.
    Passing {
        order: ByteOrder,
        left: usize,
        total: usize,
    },
}
