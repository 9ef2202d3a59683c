//! A data packet whose number is known.
use crate::flows::flow::Flow;

/// A data packet of a flow, and its number there.
#[derive(Clone, Copy)]
pub(crate) struct Numbered {
    /// The flow.
    pub(crate) flow: Flow,
    /// The sequence field.
    pub(crate) sequence: u16,
    /// The number of its item, of which the field shows the lowest 16 bits.
    pub(crate) item: u64,
}
