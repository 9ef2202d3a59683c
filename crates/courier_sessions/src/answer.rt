//! What a call is answered by.

/// What a call is answered by, but for its words and its transaction (XSIS 038112, Courier, Return, Abort and Reject message).
#[derive(Clone, Copy, Debug, PartialEq, Eq)]
pub enum Answer {
    /// The call is not carried out, for this reason.
    Reject { reason: u16 },
    /// The words are its results.
    Return,
    /// The error of this number, whose arguments the words are.
    Abort { error: u16 },
}
