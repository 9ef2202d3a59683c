//! Why words have no text by name.

use thiserror::Error;

/// Why words are not exactly one value, or its text is not shown.
#[derive(Clone, Copy, Debug, PartialEq, Eq, Error)]
pub enum UnreadReason {
    /// The words end before the value does.
    #[error("Truncated")]
    Truncated,
    /// A boolean's word is neither 0 nor 1.
    #[error("NotBoolean")]
    NotBoolean,
    /// The word of an enumeration, or the designator of a choice, is not listed.
    #[error("NotListed")]
    NotListed,
    /// A sequence's count is over its maximum.
    #[error("OverMaximum")]
    OverMaximum,
    /// Words stand behind the value.
    #[error("Trailing")]
    Trailing,
    /// The text has over 1,048,576 bytes.
    #[error("LongText")]
    LongText,
}

/// The first word, counted from 0, that goes on no value of the type, and why.
#[derive(Clone, Copy, Debug, PartialEq, Eq, Error)]
#[error("{place} {reason}")]
pub struct Unread {
    pub place: usize,
    pub reason: UnreadReason,
}

/// Why there is no text.
#[derive(Debug, Drop, PartialEq, Eq, Error)]
pub enum Unshown {
    #[error(transparent)]
    Unread(Unread),
    /// A growth was refused.
    #[error("no memory")]
    NoMemory,
}
