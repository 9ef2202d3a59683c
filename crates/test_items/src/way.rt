/// What the two ends say of their own.
#[derive(Clone, Copy, PartialEq, Eq)]
pub enum Way {
    /// The receiver replies and no more; at a timeout the sender ticks.
    Silent,
    /// The receiver also tells its room once it has taken items.
    Telling,
    /// As `Telling`; at a timeout the sender sends its first item again alone, and the next one as long as the replies acknowledge more.
    Alone,
    /// As `Alone`; the receiver replies once to the packets that came together, after it has taken their items.
    Once,
}
