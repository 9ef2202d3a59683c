//! Laws of texts, as functions that do nothing.

ghost use Rattle.courier_texts.specs.Laws.{EqualTextsAreOfEqualValues};

use courier_types::laws::fitting_value_is_spelled;

/// Of values of one type, equal texts are of equal values, so a text says as much as the words. The names of
/// the members of each enumeration differ, and so do those of the candidates of each choice.
pub fn equal_texts_are_of_equal_values()
    ensures { EqualTextsAreOfEqualValues }
{
    fitting_value_is_spelled();
}
