//! Parts of types, with their names.

use courier_texts::Named;

/// A member of an enumeration: its name and its word.
pub(crate) type Member = (Vec<u8>, u16);

/// A component of a record: its name and its type.
pub(crate) type Component = (Vec<u8>, Named);

/// A candidate of a choice: its name, its designator and its type.
pub(crate) type Candidate = (Vec<u8>, (u16, Named));
