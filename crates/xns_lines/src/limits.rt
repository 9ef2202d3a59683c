//! The limits of an input.

/// A line has at most so many bytes, without its byte 10 and with its byte 13.
pub const MOST_LINE_BYTES: usize = 4096;

/// The input of `dump` and of `sim` has at most so many lines.
pub const MOST_LINES: usize = 65536;
