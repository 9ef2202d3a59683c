//! Two ends of a connection, and every packet that was ever sent between them: whatever of it is lost, repeated or
//! reordered, what either end hands up begins what the other sent (XSIS 028112, Sequenced Packet Protocol).
#![tactic(auto)]

mod bag;
mod counts;
mod emitted;
mod ends;
mod event;
mod item_trace;
mod items;
pub mod laws;
mod moment;
mod network;
mod pair;
mod participant;
mod play;
mod setup;
mod side;

pub use bag::Bag;
pub use ends::{flush_end, land, tick_end};
pub use event::Event;
pub use item_trace::ItemTrace;
pub use items::Items;
pub use network::Network;
pub use participant::copied;
pub use play::play_items;
pub use setup::Setup;
pub use side::Side;
