//! Calls and what came back, as text by name and value (XSIS 038112, Courier), and programs line by line.
//!
//! The text of a call, a return or an abort is exactly its definition: it is there where its program, version
//! and number are declared, and it says why where the words are not exactly one value.
#![tactic(auto)]

mod appending;
mod calls;
mod listing;
mod showing;
mod unread;

pub use calls::{abort_text, call_text, return_text};
pub use listing::append_program;
pub use unread::{Unread, UnreadReason, Unshown};
