//! Courier's messages: how they are written and read, how they are cut into items, and what items say by them (XSIS
//! 038112, Courier, Message stream). No function here looks at what can be called.
#![tactic(auto)]

mod cutting;
mod fault;
mod front;
mod head;
mod incoming;
pub mod kinds;
pub mod laws;
mod message;
mod pieced_message;
mod pieces;
mod reading;
mod spare;
mod whole_message;
mod words;
mod writing;

pub use cutting::{cut, put_long, put_out, put_whole, versions};
pub use fault::{MessageFault, MessageRefusal, SessionFault};
pub use head::Head;
pub use incoming::{Incoming, VERSION};
pub use message::Message;
pub use pieced_message::PiecedMessage;
pub use reading::{MOST_BYTES, read_message};
pub use spare::Spare;
pub use whole_message::WholeMessage;
pub use words::Words;
pub use writing::write_message;
