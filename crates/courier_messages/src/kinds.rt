//! The kinds of message, by their first word.

/// A call.
pub const CALL: u16 = 0;

/// A reject.
pub const REJECT: u16 = 1;

/// A return.
pub const RETURN: u16 = 2;

/// An abort.
pub const ABORT: u16 = 3;
