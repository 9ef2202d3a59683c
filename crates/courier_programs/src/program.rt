//! Programs whose names are resolved.

ghost use Rattle.std.specs.Prelude.{◌≡◌, is_none, true};
ghost use Rattle.courier_types.specs.Check.{shape_fault};
ghost use Rattle.courier_types.specs.Shape.{shape_model};

use courier_texts::Named;
use courier_types::Shape;

/// The components of a record.
#[derive(Debug, Drop)]
pub struct Fields {
    /// The names of the components, and their types.
    pub components: Vec<(Vec<u8>, Named)>,
    /// The shape of the record. It is checked, as `Shape::check` does.
    pub shape: Shape,
    pub ghost checked: { is_none (shape_fault (shape_model shape)) ≡ true },
}

/// A remote procedure (XSIS 038112, Courier, Remote programs).
#[derive(Debug, Drop)]
pub struct Procedure {
    pub name: Vec<u8>,
    pub number: u16,
    pub arguments: Fields,
    pub results: Fields,
}

/// A remote error (XSIS 038112, Courier, Remote programs).
#[derive(Debug, Drop)]
pub struct RemoteError {
    pub name: Vec<u8>,
    pub number: u16,
    pub arguments: Fields,
}

/// What a name of a program stands for.
#[derive(Debug, Drop)]
pub enum Meaning {
    /// A type, and how many types, members, components and candidates it has.
    Type { named: Named, size: usize },
    /// A type that is declared by itself. No call can carry it.
    Recursive,
    /// A constant, and its value if that is a number.
    Constant(Option<u32>),
    Procedure,
    Error,
}

/// A program whose names are resolved: no type in it refers to another one.
#[derive(Debug, Drop)]
pub struct Program {
    pub name: Vec<u8>,
    pub number: u32,
    pub version: u16,
    /// The names that are declared, in order, and what they stand for.
    pub meanings: Vec<(Vec<u8>, Meaning)>,
    /// The procedures, in the order of their declarations. No two have one number.
    pub procedures: Vec<Procedure>,
    /// The errors, in the order of their declarations. No two have one number.
    pub errors: Vec<RemoteError>,
}
