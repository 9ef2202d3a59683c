//! What is to be done at a connection at a time.

/// What is to be done at a connection at a time.
#[derive(Clone, Copy, Debug, PartialEq, Eq)]
pub enum Act {
    /// Nothing is due.
    Nothing,
    /// The packet that waits for the peer goes out again.
    Again,
    /// The peer is asked for a word.
    Ask,
    /// As many packets as are borne went out without a word of the peer, and one more wait is over: the connection is
    /// closed.
    GiveUp,
    /// The connection, which is closed, may be forgotten.
    Forget,
}
