//! The nodes of tables.

use courier_types::Predefined;

/// What a node stands for.
#[derive(Clone, Copy, Debug, PartialEq, Eq)]
pub enum NodeKind {
    Predefined(Predefined),
    /// An enumeration. Its parts are its members.
    Enumeration,
    /// A member of an enumeration. Its number is its word.
    Member,
    /// An array. Its number is how many elements it has, and its part the type of one.
    Array,
    /// A sequence. Its number is how many elements it has at most, and its part the type of one.
    Sequence,
    /// A record. Its parts are the types of its components, each by the component's name.
    Record,
    /// A choice. Its parts are its candidates.
    Choice,
    /// A candidate of a choice. Its number is its designator, and its part the type of its value.
    Candidate,
    /// A constant that is a number.
    Constant,
    /// A procedure by its number. Its parts are two records: the arguments, and the results.
    Procedure,
    /// An error by its number. Its part is the record of its arguments.
    Error,
}

/// A node of a table. Its parts stand behind it, each with its own parts.
#[derive(Debug, Drop)]
pub struct Node {
    pub kind: NodeKind,
    /// What the kind says; 0 where it says nothing.
    pub number: u32,
    /// How many parts the node has. The parts of its parts are not counted.
    pub parts: usize,
    /// The name that the node is declared by; empty where it has none.
    pub name: Vec<u8>,
}
