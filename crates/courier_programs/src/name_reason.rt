//! What is wrong with a name of a program.

use thiserror::Error;

/// Why a program is refused at one of its names.
#[derive(Clone, Copy, Debug, PartialEq, Eq, Error)]
pub enum NameReason {
    /// The name stands a second time among names that must differ.
    #[error("DoubledName")]
    DoubledName,
    /// Two members, or two designators, have this word.
    #[error("DoubledWord")]
    DoubledWord,
    /// Two procedures, or two errors, have the number of this declaration.
    #[error("DoubledNumber")]
    DoubledNumber,
    /// A program with this number and version was read before.
    #[error("DoubledProgram")]
    DoubledProgram,
    /// Nothing of this name, of the kind that is wanted, was declared before.
    #[error("UnknownName")]
    UnknownName,
    /// The program depends upon no program of this name.
    #[error("UnknownProgram")]
    UnknownProgram,
    /// The program that is depended upon was not read before.
    #[error("NotRead")]
    NotRead,
    /// The constant is no number of one word.
    #[error("NotNumber")]
    NotNumber,
    /// The type that names designators is no enumeration.
    #[error("NotEnumeration")]
    NotEnumeration,
    /// The number of the designator is not its member's.
    #[error("OtherNumber")]
    OtherNumber,
    /// The designator has neither a number nor an enumeration that gives one.
    #[error("NoDesignator")]
    NoDesignator,
    /// The type is recursive, so no call can carry it.
    #[error("Recursive")]
    Recursive,
    /// The types of this declaration stand in one another too deep.
    #[error("TooDeep")]
    TooDeep,
    /// An array's or a sequence's elements have no words in this declaration.
    #[error("NoWords")]
    NoWords,
    /// The types of the program have too many parts, up to this declaration.
    #[error("TooLarge")]
    TooLarge,
}
