//! A program of Courier's notation as a table of nodes (XSIS 038112, Courier, Remote programs): its constants, types, procedures and
//! errors in one list, each in front of its parts. A program in a language without trees reads the list from its front.
#![tactic(auto)]

mod node;
mod tables;

pub use node::{Node, NodeKind};
pub use tables::table_of;
