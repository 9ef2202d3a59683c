//! One Courier conversation over the Sequenced Packet Protocol, with time.
#![tactic(auto)]

mod call;
mod closing;
mod connection;
mod conversation;
pub mod laws;
mod owed;
mod refusal;
mod replying;
mod settling;
mod side;
mod terms;
mod why;
mod why_closed;

pub use call::Call;
pub use connection::Connection;
pub use refusal::Refusal;
pub use terms::Terms;
pub use why::Why;
pub use xns_agenda::{Act, Due, Pace};
