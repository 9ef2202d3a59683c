//! Why a call is not made.

use thiserror::Error;

/// Why a call is not made. The side then is as it was.
#[derive(Clone, Copy, Debug, PartialEq, Eq, Error)]
pub enum CallRefusal {
    /// The conversation has stopped.
    #[error("the conversation has stopped")]
    Stopped,
    /// A call waits for its answer, or an answer was not picked up.
    #[error("a call waits for its answer, or an answer was not picked up")]
    Busy,
    /// The message has over 131,072 bytes: more than 65,530 words.
    #[error("the message has more than 131072 bytes")]
    TooLong,
    /// A growth was refused.
    #[error("no memory")]
    NoMemory,
}
