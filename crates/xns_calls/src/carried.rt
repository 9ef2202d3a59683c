//! An item, as its packet brought it.
use xns_spp::Item;

/// An item, as its packet brought it.
#[derive(Drop)]
pub struct Carried {
    /// The item.
    pub item: Item,
    /// All items of the flow behind with numbers below this one are acknowledged by its packet. `None`: that flow had not begun, or the
    /// field stands for no number.
    pub acknowledged: Option<u64>,
    /// The number of the line or frame that brought it.
    pub line: usize,
}
