//! What the agenda has to know of a connection.

/// What the agenda has to know of a connection.
#[derive(Clone, Copy, Debug, PartialEq, Eq)]
pub struct Facts {
    /// When something is due by the time alone, in milliseconds.
    pub due: Option<u64>,
    /// Whether there may be a packet to send.
    pub has_packet: bool,
    /// Whether there may be an event for the program.
    pub has_event: bool,
    /// When the connection is forgotten, if it is closed and the program has fetched that event.
    pub forgotten_at: Option<u64>,
    /// When the peer was last heard, if it opened the connection, has not confirmed it, and the program has fetched no event of it.
    pub stranger_heard_at: Option<u64>,
}

impl Facts {
    /// The facts of a number that no connection has.
    pub const NONE: Facts = Facts {
        due: None,
        has_packet: false,
        has_event: false,
        forgotten_at: None,
        stranger_heard_at: None,
    };
}
