//! The connection that gives way to a new one, if one does.

ghost use Rattle.std.specs.Prelude.{◌≡◌};

/// Which connection gives way to a new one.
#[derive(Clone, Copy, Debug, PartialEq, Eq)]
pub enum Way {
    /// The connection with this number, which is closed, lingers, and is forgotten at this time.
    Lingers(usize, u64),
    /// The connection with this number, which its peer opened and never confirmed. The peer was last heard at this time.
    Stranger(usize, u64),
    /// No connection gives way.
    Nobody,
}

impl Way {
    ghost use Rattle.xns_agenda.specs.Agenda.{number_in};

    /// The number of the connection that gives way. `None`: none does.
    pub fn number(self) -> Option<usize>
        ensures { result ≡ number_in self }
    {
        match self {
            Way::Lingers(number, _) | Way::Stranger(number, _) => Some(number),
            Way::Nobody => None,
        }
    }
}
