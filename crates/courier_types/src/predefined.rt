//! The predefined types.

ghost use Rattle.std.specs.Prelude.{◌≡◌};
ghost use Rattle.courier_types.specs.Shape.{predefined_shape, shape_model};

use crate::shape::Shape;

/// A predefined type (XSIS 038112, Courier, Predefined types).
#[derive(Clone, Copy, Debug, PartialEq, Eq)]
pub enum Predefined {
    Boolean,
    Cardinal,
    LongCardinal,
    Integer,
    LongInteger,
    Unspecified,
    /// `STRING`
    Text,
}

impl Predefined {
    /// The shape of the type's values.
    pub fn shape(self) -> Shape
        ensures { shape_model result ≡ predefined_shape self }
    {
        match self {
            Predefined::Boolean => Shape::Boolean,
            Predefined::Cardinal => Shape::Cardinal,
            Predefined::LongCardinal => Shape::LongCardinal,
            Predefined::Integer => Shape::Integer,
            Predefined::LongInteger => Shape::LongInteger,
            Predefined::Unspecified => Shape::Unspecified,
            Predefined::Text => Shape::Text,
        }
    }
}
