//! The two ends of a connection.

ghost use Rattle.std.specs.Prelude.{◌≡◌};

/// One of the two ends of a connection.
#[derive(Clone, Copy, Debug, PartialEq, Eq)]
pub enum Side {
    /// The initiator, which opens the connection.
    A,
    /// The responder.
    B,
}

impl Side {
    ghost use Rattle.item_world.specs.Side.{other};

    /// The end on the other side.
    pub fn other(self) -> Side
        ensures { result ≡ other self }
    {
        match self {
            Side::A => Side::B,
            Side::B => Side::A,
        }
    }
}
