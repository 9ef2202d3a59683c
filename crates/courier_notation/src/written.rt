//! Types as they are written.

use courier_types::Predefined;

/// A name that is referred to. Names are indices in `Lexed::names`.
#[derive(Clone, Copy, Debug, PartialEq, Eq)]
pub enum Reference {
    /// A name that is declared in the same program.
    Own(u32),
    /// The name of another program, and a name that is declared there.
    Other(u32, u32),
}

/// A number of one word.
#[derive(Clone, Copy, Debug, PartialEq, Eq)]
pub enum Numeric {
    Number(u16),
    /// The name of a constant.
    Constant(Reference),
}

/// A designator: its name, and its word, `None` where that is not written.
pub type Designator = (u32, Option<Numeric>);

/// Names or designators that are written together, and their type.
pub type Group<P> = (Vec<P>, WrittenType);

/// A type as it is written (XSIS 038112, Courier, Data types). Names are indices in `Lexed::names`.
#[derive(Debug, Drop, PartialEq, Eq)]
pub enum WrittenType {
    /// A type that is written by keywords alone.
    Predefined(Predefined),
    /// The members: their names and words.
    Enumeration(Vec<(u32, Numeric)>),
    /// The number of elements, and their type.
    Array(Numeric, Box<WrittenType>),
    /// The maximum number of elements, and their type. `None` where no maximum is written: it is 65,535.
    Sequence(Option<Numeric>, Box<WrittenType>),
    /// The components, by their names.
    Record(Vec<Group<u32>>),
    /// The enumeration whose members the designators are, `None` where none is named; and the candidates, by
    /// their designators.
    Choice(Option<Reference>, Vec<Group<Designator>>),
    /// A type that is declared elsewhere.
    Named(Reference),
}
