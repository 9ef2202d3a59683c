//! Values printed by their types, in Courier's notation of constants.

ghost use Rattle.std.specs.Prelude.{◌≡◌, ◌++◌, ◌<◌, ◌≤◌, [], codes, vec_len};
ghost use Rattle.std.specs.List.{flat_map};
ghost use Rattle.std.specs.Fmt.{decimal, signed_decimal};
ghost use Rattle.courier_types.specs.Value.{value_model, value_models};
ghost use Rattle.courier_texts.specs.Named.{component_models, members_seen, named_model, variant_models};
ghost use Rattle.courier_texts.specs.Appending.{Appends, most_text};
ghost use Rattle.courier_texts.specs.Printing.{boolean_text, components_text, elements_text, escaped, hex_digit, member_text, predefined_text};
ghost use Rattle.courier_texts.specs.Printing.{quoted as quoted_of, quoted_byte, value_text, variant_text};

use crate::appending::append;
use crate::named::Named;
use crate::text_refusal::TextRefusal;
use courier_types::{Predefined, Value};
use itoa::Buffer;

/// `TRUE` or `FALSE`.
fn print_boolean(out: &mut Vec<u8>, bit: bool) -> Result<(), TextRefusal>
    requires { vec_len out.old ≤ most_text }
    ensures { Appends result (boolean_text bit) out.old out.new }
{
    if bit {
        append(out, b"TRUE")
    } else {
        append(out, b"FALSE")
    }
}

/// A number in decimal.
fn print_number(out: &mut Vec<u8>, number: u32) -> Result<(), TextRefusal>
    requires { vec_len out.old ≤ most_text }
    ensures { Appends result (decimal number) out.old out.new }
{
    let mut buffer = Buffer::new();
    append(out, buffer.format(number).as_bytes())
}

/// A number in decimal, behind a minus sign where it is negative.
fn print_signed(out: &mut Vec<u8>, number: i32) -> Result<(), TextRefusal>
    requires { vec_len out.old ≤ most_text }
    ensures { Appends result (signed_decimal number) out.old out.new }
{
    let mut buffer = Buffer::new();
    append(out, buffer.format(number).as_bytes())
}

/// The hex digit of a value below 16.
fn digit_of(value: u8) -> u8
    requires { value < 16 }
    ensures { result ≡ hex_digit value }
{
    if value < 10 { 48 + value } else { 87 + value }
}

/// A byte as `\x` and two hex digits.
fn print_escaped(out: &mut Vec<u8>, byte: u8) -> Result<(), TextRefusal>
    requires { vec_len out.old ≤ most_text }
    ensures { Appends result (escaped byte) out.old out.new }
{
    append(
        out,
        &[b'\\', b'x', digit_of(byte / 16), digit_of(byte % 16)],
    )
}

/// A byte of a string.
fn print_byte(out: &mut Vec<u8>, byte: u8) -> Result<(), TextRefusal>
    requires { vec_len out.old ≤ most_text }
    ensures { Appends result (quoted_byte byte) out.old out.new }
{
    if byte == b'"' {
        return append(out, b"\\\"");
    }
    if byte == b'\\' {
        return append(out, b"\\\\");
    }
    if byte < 32 {
        return print_escaped(out, byte);
    }
    if 126 < byte {
        return print_escaped(out, byte);
    }
    append(out, &[byte])
}

/// The bytes of a string, without the quotes.
fn print_bytes(out: &mut Vec<u8>, bytes: &[u8]) -> Result<(), TextRefusal>
    requires { vec_len out.old ≤ most_text }
    ensures { Appends result (flat_map quoted_byte bytes.now) out.old out.new }
{
    for byte in bytes {
        print_byte(out, *byte)?;
    }
    Ok(())
}

/// A string between quotes.
fn print_text(out: &mut Vec<u8>, bytes: &[u8]) -> Result<(), TextRefusal>
    requires { vec_len out.old ≤ most_text }
    ensures { Appends result (quoted_of bytes.now) out.old out.new }
{
    append(out, b"\"")?;
    print_bytes(out, bytes)?;
    append(out, b"\"")
}

/// A value of the predefined type; nothing of another value.
fn print_predefined(
    out: &mut Vec<u8>,
    predefined: Predefined,
    value: &Value,
) -> Result<(), TextRefusal>
    requires { vec_len out.old ≤ most_text }
    ensures { Appends result (predefined_text predefined (value_model value.now)) out.old out.new }
{
    match (predefined, value) {
        (Predefined::Boolean, Value::Boolean(bit)) => print_boolean(out, *bit),
        (Predefined::Cardinal, Value::Cardinal(number)) => print_number(out, u32::from(*number)),
        (Predefined::LongCardinal, Value::LongCardinal(number)) => print_number(out, *number),
        (Predefined::Integer, Value::Integer(number)) => print_signed(out, i32::from(*number)),
        (Predefined::LongInteger, Value::LongInteger(number)) => print_signed(out, *number),
        (Predefined::Unspecified, Value::Unspecified(number)) => {
            print_number(out, u32::from(*number))
        }
        (Predefined::Text, Value::Text(bytes)) => print_text(out, bytes),
        _ => Ok(()),
    }
}

/// The name of the member that has the word; nothing where none has it.
fn print_member(out: &mut Vec<u8>, members: &[(Vec<u8>, u16)], word: u16) -> Result<(), TextRefusal>
    requires { vec_len out.old ≤ most_text }
    ensures { Appends result (member_text (members_seen members.now) word) out.old out.new }
{
    for member in members {
        if member.1 == word {
            return append(out, &member.0);
        }
    }
    Ok(())
}

/// Elements in brackets, with commas between.
#[cycle(print)]
fn print_elements(out: &mut Vec<u8>, element: &Named, values: &[Value]) -> Result<(), TextRefusal>
    requires { vec_len out.old ≤ most_text }
    ensures { Appends result (codes "["
        ++ elements_text [] (value_text (named_model element.now)) (value_models values.now) ++ codes "]") out.old out.new }
{
    append(out, b"[")?;
    let mut front: &[u8] = b"";
    for value in values {
        append(out, front)?;
        print_value(out, element, value)?;
        front = b", ";
    }
    append(out, b"]")
}

/// A component or a candidate: its name, a mark and its value.
#[cycle(print)]
fn print_part(
    out: &mut Vec<u8>,
    name: &[u8],
    mark: &[u8],
    part: &Named,
    value: &Value,
) -> Result<(), TextRefusal>
    requires { vec_len out.old ≤ most_text }
    ensures { Appends result (name.now ++ mark.now
        ++ value_text (named_model part.now) (value_model value.now)) out.old out.new }
{
    append(out, name)?;
    append(out, mark)?;
    print_value(out, part, value)
}

/// Components with commas between, as many as there are values.
#[cycle(print)]
fn print_components(
    out: &mut Vec<u8>,
    components: &[(Vec<u8>, Named)],
    values: &[Value],
) -> Result<(), TextRefusal>
    requires { vec_len out.old ≤ most_text }
    ensures { Appends result (components_text [] (component_models components.now) (value_models values.now)) out.old out.new }
{
    let mut front: &[u8] = b"";
    for (i, component) in components.iter().enumerate() {
        if i >= values.len() {
            return Ok(());
        }
        append(out, front)?;
        print_part(out, &component.0, b": ", &component.1, &values[i])?;
        front = b", ";
    }
    Ok(())
}

/// Appends the text of a record of these components, whose values these are. The errors are those of
/// `print_value`.
#[cycle(print)]
pub fn print_record(
    out: &mut Vec<u8>,
    components: &[(Vec<u8>, Named)],
    values: &[Value],
) -> Result<(), TextRefusal>
    requires { vec_len out.old ≤ most_text }
    ensures { Appends result (codes "["
        ++ components_text [] (component_models components.now) (value_models values.now) ++ codes "]") out.old out.new }
{
    append(out, b"[")?;
    print_components(out, components, values)?;
    append(out, b"]")
}

/// The candidate that has the designator, with its value; nothing where none has it.
#[cycle(print)]
fn print_chosen(
    out: &mut Vec<u8>,
    variants: &[(Vec<u8>, (u16, Named))],
    designator: u16,
    value: &Value,
) -> Result<(), TextRefusal>
    requires { vec_len out.old ≤ most_text }
    ensures { Appends result (variant_text (variant_models variants.now) designator (value_model value.now)) out.old out.new }
{
    for variant in variants {
        if variant.1.0 == designator {
            return print_part(out, &variant.0, b" ", &variant.1.1, value);
        }
    }
    Ok(())
}

/// Appends the text of a value of the type, in Courier's notation of constants.
///
/// `LongText` exactly where `out` would have more than `MOST_TEXT` bytes with it, unless memory runs out first;
/// `NoMemory` only where the text has no room in `out` and a growth was refused. After either, a part of the
/// text may stand in `out`. Of a value that does not fit the type's shape, the text of the parts that do is
/// appended.
#[cycle(print)]
#[tactic(auto, unfolding(crate::specs::Printing::value_text))]
pub fn print_value(out: &mut Vec<u8>, named: &Named, value: &Value) -> Result<(), TextRefusal>
    requires { vec_len out.old ≤ most_text }
    ensures { Appends result (value_text (named_model named.now) (value_model value.now)) out.old out.new }
{
    match (named, value) {
        (Named::Predefined(predefined), _) => print_predefined(out, *predefined, value),
        (Named::Enumeration(members), Value::Enumeration(word)) => print_member(
            out, members, *word,
        ),
        (Named::Array(_, element), Value::Array(values)) => print_elements(out, element, values),
        (Named::Sequence(_, element), Value::Sequence(values)) => print_elements(
            out, element, values,
        ),
        (Named::Record(components), Value::Fields(values)) => print_record(out, components, values),
        (Named::Choice(variants), Value::Choice(designator, value)) => print_chosen(
            out,
            variants,
            *designator,
            value,
        ),
        _ => Ok(()),
    }
}
