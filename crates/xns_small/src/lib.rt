//! Three small protocols over the Internet Datagram Protocol (XSIS 028112): Echo, Error and Packet Exchange.
//!
//! Each has a view that is lent from a packet's body, read by `read_*` and written by `write_*`. [`answer_echo`] is an Echo
//! server, [`complain`] makes the Error packet about an offending one, and [`Requester`] is the asking side of a packet
//! exchange.
#![tactic(auto)]

mod appending;
mod complaining;
mod echo;
pub mod error_number;
mod error_report;
mod exchange;
mod fault;
pub mod laws;
mod replying;
mod requester;
mod sending;

pub use complaining::complain;
pub use echo::{Echo, read_echo, write_echo};
pub use error_report::{ErrorReport, read_error, write_error};
pub use exchange::{Exchange, read_exchange, write_exchange};
pub use fault::SmallFault;
pub use replying::answer_echo;
pub use requester::Requester;
