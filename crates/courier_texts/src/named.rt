//! Types with their names, complete in themselves.

use courier_types::Predefined;

/// A type whose names are known, in which no other type is referred to. Its shape, which has no names, tells its words.
#[derive(Debug, Drop, PartialEq, Eq)]
pub enum Named {
    Predefined(Predefined),
    /// The names of the members, and their words.
    Enumeration(Vec<(Vec<u8>, u16)>),
    Array(u16, Box<Named>),
    Sequence(u16, Box<Named>),
    /// The names of the components, and their types.
    Record(Vec<(Vec<u8>, Named)>),
    /// The names of the candidates, and their designators and types.
    Choice(Vec<(Vec<u8>, (u16, Named))>),
}
