//! The first item that a flow keeps.

/// The first item that a flow keeps, and what decides when it is read.
#[derive(Clone, Copy)]
pub struct FirstKept {
    /// The item's number.
    pub number: u64,
    /// All items of the flow behind with numbers below this one are to be read before it. `None`: it waits for none.
    pub acknowledged: Option<u64>,
    /// The number of the line or frame by which it has its turn.
    pub line: usize,
}
