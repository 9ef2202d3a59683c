/// What a connection is to send besides its new items, and what it is to do once more.
#[derive(Clone, Copy)]
pub struct Owed {
    /// A packet that says what came and how much room there is.
    pub word: bool,
    /// The first item that is not acknowledged, once more; before the connection is open, the opening packet.
    pub again: bool,
    /// A packet that asks the peer for a word.
    pub asks: bool,
    /// Memory was refused while items moved: the items are to move.
    pub moving: bool,
    /// Something changed since `next_packet` last returned `None`.
    pub fresh: bool,
}

impl Owed {
    /// What a dead connection owes: nothing. It sends nothing any more.
    pub const SILENT: Owed = Owed {
        word: false,
        again: false,
        asks: false,
        moving: false,
        fresh: false,
    };

    /// What a new connection owes: nothing.
    pub const NONE: Owed = Owed {
        word: false,
        again: false,
        asks: false,
        moving: false,
        fresh: true,
    };
}
