//! Programs as they are written.

use crate::written::{Group, Reference, WrittenType};

/// The value of a constant, as far as a type can depend on it.
#[derive(Clone, Copy, Debug, PartialEq, Eq)]
pub enum Constant {
    Number(u32),
    /// The value of another constant.
    Named(Reference),
    /// A value that is no number.
    Other,
}

/// What a name is declared as (XSIS 038112, Courier).
#[derive(Debug, Drop)]
pub enum Declared {
    Type(WrittenType),
    Constant(WrittenType, Constant),
    Procedure {
        arguments: Vec<Group<u32>>,
        results: Vec<Group<u32>>,
        /// The errors that the procedure reports.
        errors: Vec<Reference>,
        number: u16,
    },
    Error {
        arguments: Vec<Group<u32>>,
        number: u16,
    },
}

/// A name, and what it is declared as.
#[derive(Debug, Drop)]
pub struct Declaration {
    /// The index of the name in `Lexed::names`.
    pub name: u32,
    pub declared: Declared,
}

/// A program that another depends upon.
#[derive(Clone, Copy, Debug, PartialEq, Eq)]
pub struct Dependency {
    /// The index of the program's name in `Lexed::names`.
    pub name: u32,
    pub number: u32,
    pub version: u16,
}

/// A program as it is written (XSIS 038112, Courier). Names are indices in `Lexed::names`.
#[derive(Debug, Drop)]
pub struct WrittenProgram {
    pub name: u32,
    pub number: u32,
    pub version: u16,
    pub dependencies: Vec<Dependency>,
    pub declarations: Vec<Declaration>,
}
