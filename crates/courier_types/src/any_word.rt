//! Shapes of which any one word spells a value.

ghost use Rattle.std.specs.Prelude.{◌≡◌, ◌≢◌, IfSome, IfNone, IsTrue};
ghost use Rattle.courier_types.specs.declared.any_word.AnyWord.{AnyWord};
ghost use Rattle.courier_types.specs.Shape.{shape_model};
ghost use Rattle.courier_types.specs.Value.{value_model};
ghost use Rattle.courier_types.specs.Fits.{has_shape, IsValue};
ghost use Rattle.courier_types.specs.AnyWord.{shape_of, word_value};

use crate::known::known_value;
use crate::shape::Shape;
use crate::value::Value;

/// A shape of which any one word spells a value. A loop over many such values matches the shape once.
#[derive(Clone, Copy)]
pub enum AnyWord {
    Cardinal,
    Integer,
    Unspecified,
}

impl AnyWord {
    /// The shape, if any one word spells a value of it.
    pub fn of(shape: &Shape) -> Option<AnyWord>
        ensures some { IfSome result (λ kind. shape_model shape.now ≡ shape_of kind) }
        ensures none { IfNone result ((kind : AnyWord) → shape_model shape.now ≢ shape_of kind) }
    {
        match shape {
            Shape::Cardinal => Some(AnyWord::Cardinal),
            Shape::Integer => Some(AnyWord::Integer),
            Shape::Unspecified => Some(AnyWord::Unspecified),
            _ => None,
        }
    }

    /// The value that the word spells.
    #[inline(always)]
    pub fn value(self, word: u16) -> Value
        ensures { value_model result ≡ word_value self word }
    {
        match self {
            AnyWord::Cardinal => Value::Cardinal(word),
            AnyWord::Integer => Value::Integer(word.cast_signed()),
            AnyWord::Unspecified => Value::Unspecified(word),
        }
    }

    /// Whether the value is one of the shape.
    #[inline(always)]
    #[tactic(auto, unfolding(crate::specs::Fits::has_shape))]
    pub fn has(self, value: &Value) -> bool
        ensures decides { result ≡ has_shape (shape_of self) (value_model value.now) }
        ensures numbers { IsTrue result → IsValue (value_model value.now) }
    {
        known_value(value);
        match (self, value) {
            (AnyWord::Cardinal, Value::Cardinal(_))
            | (AnyWord::Integer, Value::Integer(_))
            | (AnyWord::Unspecified, Value::Unspecified(_)) => true,
            _ => false,
        }
    }
}
