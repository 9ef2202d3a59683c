//! Which times are printed.

/// Which times are printed before the lines of a capture, and behind answers how long they took.
#[derive(Clone, Copy, Debug, PartialEq, Eq)]
pub enum Times {
    /// No times.
    Hidden,
    /// The times of the frames, in seconds since 1970.
    Absolute,
    /// The times of the frames, in seconds since the first one that has a time.
    Relative,
}
