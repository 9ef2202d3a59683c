//! What a connection does by the time alone, and when.

ghost use Rattle.std.specs.Prelude.{◌≡◌};

/// What a connection does by the time alone, and when, in milliseconds.
#[derive(Clone, Copy, Debug, PartialEq, Eq)]
pub enum Due {
    /// Nothing.
    Never,
    /// The packet that waits for the peer goes out again at this time.
    AgainAt(u64),
    /// The peer is asked for a word at this time.
    AskAt(u64),
    /// The connection, which is closed, is forgotten at this time.
    ForgetAt(u64),
}

impl Due {
    ghost use Rattle.xns_agenda.specs.Waiting.{due_time};

    /// The time; a `None` is never.
    pub fn time(self) -> Option<u64>
        ensures { result ≡ due_time self }
    {
        match self {
            Due::Never => None,
            Due::AgainAt(time) | Due::AskAt(time) | Due::ForgetAt(time) => Some(time),
        }
    }
}
