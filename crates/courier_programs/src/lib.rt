//! Remote programs by name (XSIS 038112, Courier): the names of a program that is written are resolved, over
//! several programs, and programs, procedures and errors are found by their numbers.
//!
//! `resolve` is exactly its definition, a function of the program that is written and of those that were read
//! before, its first fault included. The types of what it returns refer to nothing, and their shapes are
//! checked.
#![tactic(auto)]

mod bytes;
mod copying;
mod declarations;
mod distinct;
mod finding;
pub mod laws;
pub mod limits;
mod members;
mod name_reason;
mod parts;
mod position;
mod program;
mod program_refusal;
mod reading;
mod refusal;
mod resolving;
mod scope;
mod types;

pub use finding::{error_of, procedure_of, program_of};
pub use name_reason::NameReason;
pub use position::line_and_column;
pub use program::{Fields, Meaning, Procedure, Program, RemoteError};
pub use program_refusal::{ProgramReason, ProgramRefusal};
pub use reading::read_text;
pub use refusal::Refusal;
pub use resolving::resolve;
