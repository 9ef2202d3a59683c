//! The lines of a simulation: calls that are to be made, and events of the connection that carries them.
#![tactic(auto)]

mod command;
mod reading;
mod script;
mod words;

pub use command::Command;
pub use reading::read_command;
pub use script::Script;
