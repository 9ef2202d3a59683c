//! Why a text was not appended.

use thiserror::Error;

/// Why the text of a value was not appended.
#[derive(Clone, Copy, Debug, PartialEq, Eq, Error)]
pub enum TextRefusal {
    /// The text would be longer than `MOST_TEXT`.
    #[error("the text has over 1,048,576 bytes")]
    LongText,
    /// A growth was refused.
    #[error("no memory")]
    NoMemory,
}
