//! Courier's notation of remote programs (XSIS 038112, Courier): a text becomes tokens, and tokens become
//! the tree of a program. Names are numbers in the tree, and are not looked up here.
//!
//! `lex` and `read_program` are exactly their definitions, the first fault and its place included; the
//! laws say that reading is the inverse of spelling.
#![tactic(auto)]

mod bytes;
mod constants;
mod declarations;
mod declared;
mod failure;
mod keywords;
pub mod laws;
mod lexed;
mod lexemes;
mod lexing;
pub mod limits;
mod marks;
mod part;
mod parts;
mod programs;
mod reason;
mod stop;
mod token;
mod types;
mod written;

pub use declared::{Constant, Declaration, Declared, Dependency, WrittenProgram};
pub use failure::Failure;
pub use lexed::Lexed;
pub use lexing::lex;
pub use programs::read_program;
pub use reason::Reason;
pub use stop::Stop;
pub use token::Token;
pub use written::{Designator, Group, Numeric, Reference, WrittenType};
