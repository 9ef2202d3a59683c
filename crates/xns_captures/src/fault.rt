//! Why a capture is not read on.
use crate::link_name::behind_link;
use thiserror::Error;

/// Why a capture is not read on.
#[derive(Clone, Copy, Debug, PartialEq, Eq, Error)]
pub enum CaptureFault {
    /// The first bytes are those of neither format.
    #[error("no capture")]
    NoCapture,
    /// The file ends within a header, a record or a block.
    #[error("the capture is cut")]
    Cut,
    /// A frame has over [`crate::MOST_FRAME_BYTES`], or a block that is read over [`crate::MOST_BLOCK_BYTES`].
    #[error("a record of the capture is too long")]
    TooLong,
    /// The two lengths of a block differ, its length is no multiple of four, or what it holds is longer.
    #[error("the lengths of a block disagree")]
    Lengths,
    /// A section has bytes in no known order.
    #[error("a section has bytes in an unknown order")]
    Order,
    /// The version of the file, or of a section, is unknown.
    #[error("the version of the capture is unknown")]
    Version,
    /// A frame is of an interface that its section does not describe.
    #[error("a frame names an interface that is not described")]
    NoInterface,
    /// A section describes over [`crate::MOST_INTERFACES`].
    #[error("a section has too many interfaces")]
    TooManyInterfaces,
    /// No frame of this link type is read, nor one of another interface of the section, up to here.
    #[error("link type {0}{name} is not read", name = behind_link(*.0))]
    UnreadLink(u16),
}
