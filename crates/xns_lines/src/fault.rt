//! How a run ends before the end of its input.
use thiserror::Error;

/// Whether a run over an input refused something of it, or why the run stopped before the end of the input.
pub type RunResult = Result<bool, RunFault>;

/// Why a run stopped before the end of its input.
#[derive(Clone, Copy, Debug, PartialEq, Eq, Error)]
pub enum RunFault {
    /// A read failed.
    #[error("read fault")]
    Read,
    /// A write failed, or took no byte.
    #[error("write fault")]
    Write,
    /// A line has over 4,096 bytes, without its byte 10 and with its byte 13.
    #[error("line too long")]
    LineTooLong,
    /// There are more lines than are taken.
    #[error("too many lines")]
    TooManyLines,
    /// A growth was refused.
    #[error("no memory")]
    NoMemory,
}
