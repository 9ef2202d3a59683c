//! Why a text or its tokens were not read.

use crate::failure::Failure;
use crate::reason::Reason;

/// Why a text was not cut into tokens, or tokens were not read as a program. The place of the fault is the number
/// of bytes, for `lex`, or of tokens, for `read_program`, from the fault to the end; it is 0 where the end comes
/// too early.
pub type Stop = Failure<usize, Reason>;
