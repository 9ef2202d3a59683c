//! What takes effect with a packet.
use crate::given::Given;

/// What was acknowledged 64 packets of the connection ago, and takes effect with a packet: all items with numbers below this one
/// were sent.
#[derive(Clone, Copy)]
pub struct Due {
    /// Of the packet's own flow, if something does.
    pub own: Option<u64>,
    /// Of the flow behind it, if something does.
    pub other: Option<u64>,
    /// All items of the flow behind with numbers below this one are acknowledged by the packet itself. `None`: that flow had not begun,
    /// or the field stands for no number.
    pub acknowledged: Option<u64>,
    /// Up to where items are waited for no longer.
    pub given: Given,
}
