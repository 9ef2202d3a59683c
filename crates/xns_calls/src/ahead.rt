//! An acknowledgement that is kept.

/// An acknowledgement that was captured ahead of items that it acknowledges.
#[derive(Clone, Copy)]
pub struct Ahead {
    /// For so many packets of the connection more it waits, and takes effect with the last of them.
    pub left: u8,
    /// All items of the flow with numbers below this one are acknowledged.
    pub number: u64,
}
