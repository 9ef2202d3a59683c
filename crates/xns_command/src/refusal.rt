//! Why the program does nothing.

/// Why the words of a command line name no mode.
#[derive(Clone, Copy, Debug, PartialEq, Eq)]
pub enum Refusal {
    /// Help is asked for, or the version.
    Help,
    /// Memory was refused for the words.
    NoMemory,
    /// The words are wrong.
    Mistake,
}
