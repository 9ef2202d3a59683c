use std::fmt;

/// The counts of a trial.
#[derive(Clone, Copy)]
pub struct Counts {
    /// Items that the receiver handed up.
    pub handed: u32,
    /// Rounds in which the sender had nothing to send, so that it had to wait.
    pub timeouts: u32,
    /// Packets that the sender sent, those that were lost among them.
    pub there: u32,
    /// Packets that the receiver sent.
    pub back: u32,
    /// Items that came once more.
    pub repeats: u32,
}

/// A count, and what was counted.
fn put<W: fmt::Write>(f: &mut fmt::Formatter<W>, count: u32, what: &str) -> fmt::Result {
    write!(f, "{count} {what}")
}

impl fmt::Display for Counts {
    fn fmt<W: fmt::Write>(&self, f: &mut fmt::Formatter<W>) -> fmt::Result {
        put(f, self.handed, "handed up, ")?;
        put(f, self.timeouts, "timeouts, ")?;
        put(f, self.there, "packets there and ")?;
        put(f, self.back, "back, ")?;
        put(f, self.repeats, "repeats")
    }
}
