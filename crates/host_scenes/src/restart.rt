/// How the first client is started anew, in the middle of its calls.
#[derive(Clone, Copy, PartialEq, Eq)]
pub enum Restart {
    Never,
    /// The new connection has the identifier of the old one.
    SameIdentifier,
    OtherIdentifier,
}
