//! Up to where items are waited for no longer.

/// Up to where items of the two flows of a connection are waited for no longer: the greatest number that was acknowledged 64 packets of
/// the connection ago or longer, ahead of the items.
#[derive(Clone, Copy)]
pub struct Given {
    /// Of a flow: its items with numbers below this one.
    pub own: u64,
    /// Of the flow behind it.
    pub other: u64,
}
