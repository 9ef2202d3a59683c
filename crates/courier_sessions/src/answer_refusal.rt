//! Why an answer is not put out.

use thiserror::Error;

/// Why an answer is not put out. The side then is as it was.
#[derive(Clone, Copy, Debug, PartialEq, Eq, Error)]
pub enum AnswerRefusal {
    /// No call waits for the answer.
    #[error("no call waits for this answer")]
    NoCall,
    /// The message has over 131,072 bytes.
    #[error("the message has more than 131072 bytes")]
    TooLong,
    /// A growth was refused.
    #[error("no memory")]
    NoMemory,
}
