//! Why a text was not read as a program.

use crate::name_reason::NameReason;
use courier_notation::{Failure, Reason};
use thiserror::Error;

/// What is wrong with a text.
#[derive(Clone, Copy, Debug, PartialEq, Eq, Error)]
pub enum ProgramReason {
    /// A token of the text, or how its tokens follow one another.
    #[error("{0}")]
    Notation(Reason),
    /// A name of the program.
    #[error("{0}")]
    Name(NameReason),
}

/// Why a text was not read as a program. The place of the fault is the number of bytes in front of it.
pub type ProgramRefusal = Failure<usize, ProgramReason>;
