//! Courier's values, read from words at a cursor (XSIS 038112, Courier, Standard representation).
//!
//! After a fault each function returns that fault, and changes nothing. `TRUNCATED` where the words end before the value does.

ghost use Rattle.std.specs.Prelude.{◌≡◌, ◌≢◌, ◌<◌, ◌≤◌, ℕ, ◌+◌, ◌/◌, ◌%◌, List, [], ◌∷◌, drop, length, Ok, Err};
ghost use Rattle.courier_types.specs.Front.{value_of};
ghost use Rattle.courier_types.specs.Reading.{front_bytes};
ghost use Rattle.courier_types.specs.Shape.{ShapeModel};
ghost use Rattle.courier_types.specs.Value.{ValueModel};
ghost use Rattle.courier_types.specs.declared.read_fault.ReadFault.{ReadFault};
ghost use Rattle.xns_c.specs.Cursor.{ahead, further_on, faulted, IsRead};
ghost use Rattle.xns_c.specs.Given.{is_yes, IsPut};
ghost use Rattle.xns_c.specs.Results.{ok, short_buffer, truncated, over_maximum, left_over};

use crate::cursor::XnsCursor;
use crate::results::{LEFT_OVER, NOT_BOOLEAN, OK, OVER_MAXIMUM, SHORT_BUFFER, TRUNCATED};

/// Reads a cardinal, one word.
#[unsafe(no_mangle)]
pub extern "C" fn xns_read_cardinal(words: &[u16], cursor: &mut XnsCursor, value: &mut u16) -> u32
    ensures read { cursor.old.fault ≡ ok → IsRead (value_of ShapeModel.cardinal (ahead words.now cursor.old)) cursor.old cursor.new result
        (ValueModel.cardinal value.new) }
    ensures stays { cursor.old.fault ≢ ok → (result ≡ cursor.old.fault) × (cursor.new ≡ cursor.old) }
    ensures unchanged { result ≢ ok → value.new ≡ value.old }
{
    if cursor.fault != OK {
        return cursor.fault;
    }
    let [word, ..] = cursor.ahead(words) else {
        return cursor.fail(TRUNCATED);
    };
    *value = *word;
    cursor.place += 1;
    OK
}

/// Reads a long cardinal, two words.
#[unsafe(no_mangle)]
pub extern "C" fn xns_read_long_cardinal(
    words: &[u16],
    cursor: &mut XnsCursor,
    value: &mut u32,
) -> u32
    ensures read { cursor.old.fault ≡ ok → IsRead (value_of ShapeModel.long_cardinal
        (ahead words.now cursor.old)) cursor.old cursor.new result (ValueModel.long_cardinal value.new) }
    ensures stays { cursor.old.fault ≢ ok → (result ≡ cursor.old.fault) × (cursor.new ≡ cursor.old) }
    ensures unchanged { result ≢ ok → value.new ≡ value.old }
{
    if cursor.fault != OK {
        return cursor.fault;
    }
    let [high, low, ..] = cursor.ahead(words) else {
        return cursor.fail(TRUNCATED);
    };
    *value = u32::from(*high) * 65536 + u32::from(*low);
    cursor.place += 2;
    OK
}

/// Reads an integer, one word.
#[unsafe(no_mangle)]
pub extern "C" fn xns_read_integer(words: &[u16], cursor: &mut XnsCursor, value: &mut i16) -> u32
    ensures read { cursor.old.fault ≡ ok → IsRead (value_of ShapeModel.integer (ahead words.now cursor.old)) cursor.old cursor.new result
        (ValueModel.integer value.new) }
    ensures stays { cursor.old.fault ≢ ok → (result ≡ cursor.old.fault) × (cursor.new ≡ cursor.old) }
    ensures unchanged { result ≢ ok → value.new ≡ value.old }
{
    let mut word = 0;
    let result = xns_read_cardinal(words, cursor, &mut word);
    if result == OK {
        *value = word.cast_signed();
    }
    result
}

/// Reads a long integer, two words.
#[unsafe(no_mangle)]
pub extern "C" fn xns_read_long_integer(
    words: &[u16],
    cursor: &mut XnsCursor,
    value: &mut i32,
) -> u32
    ensures read { cursor.old.fault ≡ ok → IsRead (value_of ShapeModel.long_integer
        (ahead words.now cursor.old)) cursor.old cursor.new result (ValueModel.long_integer value.new) }
    ensures stays { cursor.old.fault ≢ ok → (result ≡ cursor.old.fault) × (cursor.new ≡ cursor.old) }
    ensures unchanged { result ≢ ok → value.new ≡ value.old }
{
    let mut double = 0;
    let result = xns_read_long_cardinal(words, cursor, &mut double);
    if result == OK {
        *value = double.cast_signed();
    }
    result
}

/// Reads the count of a sequence, one word, which is at most this one: so many elements are to be read.
///
/// `OVER_MAXIMUM` where it is above.
#[unsafe(no_mangle)]
pub extern "C" fn xns_read_count(
    words: &[u16],
    cursor: &mut XnsCursor,
    most: u16,
    count: &mut u16,
) -> u32
    ensures read { (n : ℕ) (rest : List ℕ) → cursor.old.fault ≡ ok → ahead words.now cursor.old ≡ n ∷ rest → n ≤ most →
        (result ≡ ok) × (count.new ≡ n) × (cursor.new ≡ further_on cursor.old 1) }
    ensures over { (n : ℕ) (rest : List ℕ) → cursor.old.fault ≡ ok → ahead words.now cursor.old ≡ n ∷ rest → most < n →
        (result ≡ over_maximum) × (cursor.new ≡ faulted cursor.old over_maximum) }
    ensures cut { cursor.old.fault ≡ ok → ahead words.now cursor.old ≡ [] → (result ≡ truncated)
        × (cursor.new ≡ faulted cursor.old truncated) }
    ensures stays { cursor.old.fault ≢ ok → (result ≡ cursor.old.fault) × (cursor.new ≡ cursor.old) }
    ensures unchanged { result ≢ ok → count.new ≡ count.old }
{
    if cursor.fault != OK {
        return cursor.fault;
    }
    match cursor.ahead(words) {
        [word, ..] if *word <= most => {
            *count = *word;
            cursor.place += 1;
            OK
        }
        [_, ..] => cursor.fail(OVER_MAXIMUM),
        [] => cursor.fail(TRUNCATED),
    }
}

/// Looks whether each word is read.
///
/// `LEFT_OVER` where words are left.
#[unsafe(no_mangle)]
pub extern "C" fn xns_read_end(words: &[u16], cursor: &mut XnsCursor) -> u32
    ensures end { cursor.old.fault ≡ ok → ahead words.now cursor.old ≡ [] → (result ≡ ok) × (cursor.new ≡ cursor.old) }
    ensures left { cursor.old.fault ≡ ok → ahead words.now cursor.old ≢ [] → (result ≡ left_over)
        × (cursor.new ≡ faulted cursor.old left_over) }
    ensures stays { cursor.old.fault ≢ ok → (result ≡ cursor.old.fault) × (cursor.new ≡ cursor.old) }
{
    if cursor.fault != OK {
        return cursor.fault;
    }
    match cursor.ahead(words) {
        [] => OK,
        _ => cursor.fail(LEFT_OVER),
    }
}

/// Reads a boolean, one word: 0 is no, 1 is yes.
///
/// `NOT_BOOLEAN` for another one.
#[unsafe(no_mangle)]
pub extern "C" fn xns_read_boolean(words: &[u16], cursor: &mut XnsCursor, value: &mut u8) -> u32
    ensures read { cursor.old.fault ≡ ok → IsRead (value_of ShapeModel.boolean (ahead words.now cursor.old)) cursor.old cursor.new result
        (ValueModel.boolean (is_yes value.new)) }
    ensures bit { result ≡ ok → cursor.old.fault ≡ ok → value.new ≤ 1 }
    ensures stays { cursor.old.fault ≢ ok → (result ≡ cursor.old.fault) × (cursor.new ≡ cursor.old) }
    ensures unchanged { result ≢ ok → value.new ≡ value.old }
{
    if cursor.fault != OK {
        return cursor.fault;
    }
    match cursor.ahead(words) {
        [word, ..] if *word <= 1 => {
            *value = *word as u8;
            cursor.place += 1;
            OK
        }
        [_, ..] => cursor.fail(NOT_BOOLEAN),
        [] => cursor.fail(TRUNCATED),
    }
}

/// Fills these bytes from words, two a word, the high one first. The spare byte of an odd number is not looked at.
fn fill_bytes(words: &[u16], bytes: &mut [u8])
    requires { length bytes.old / 2 + length bytes.old % 2 ≤ length words.now }
    ensures { front_bytes (length bytes.old) words.now ≡ Ok (bytes.new, drop (length bytes.old / 2 + length bytes.old % 2) words.now) }
{
    let (pairs, last) = words.split_at(bytes.len() / 2);
    let mut rest = pairs;
    let mut place = 0;
    while let [word, others @ ..] = rest {
        bytes[place] = (*word / 256) as u8;
        bytes[place + 1] = (*word % 256) as u8;
        place += 2;
        rest = others;
    }
    if place < bytes.len() {
        bytes[place] = (last[0] / 256) as u8;
    }
}

/// Reads a text, the number of its bytes and then two a word, to the front of a buffer, and says how many bytes they are.
///
/// `SHORT_BUFFER` where there is no room for them: `size` is how much is needed, and the text can be read again.
#[unsafe(no_mangle)]
pub extern "C" fn xns_read_text(
    words: &[u16],
    cursor: &mut XnsCursor,
    text: &mut [u8],
    size: &mut usize,
) -> u32
    ensures read { (bytes : List ℕ) (taken : ℕ) → cursor.old.fault ≡ ok
        → value_of ShapeModel.text (ahead words.now cursor.old) ≡ Ok (ValueModel.text bytes, taken) → length bytes ≤ length text.old →
        (result ≡ ok) × IsPut bytes text.old text.new size.new × (cursor.new ≡ further_on cursor.old taken) }
    ensures short { (bytes : List ℕ) (taken : ℕ) → cursor.old.fault ≡ ok
        → value_of ShapeModel.text (ahead words.now cursor.old) ≡ Ok (ValueModel.text bytes, taken) → length text.old < length bytes →
        (result ≡ short_buffer) × (size.new ≡ length bytes) × (cursor.new ≡ cursor.old) }
    ensures cut { (fault : ReadFault) → cursor.old.fault ≡ ok → value_of ShapeModel.text (ahead words.now cursor.old) ≡ Err fault
        → (result ≡ truncated) × (cursor.new ≡ faulted cursor.old truncated) }
    ensures stays { cursor.old.fault ≢ ok → (result ≡ cursor.old.fault) × (cursor.new ≡ cursor.old) × (size.new ≡ size.old) }
    ensures unchanged { result ≢ ok → text.new ≡ text.old }
    ensures untold { result ≢ ok → result ≢ short_buffer → size.new ≡ size.old }
{
    if cursor.fault != OK {
        return cursor.fault;
    }
    let [count, others @ ..] = cursor.ahead(words) else {
        return cursor.fail(TRUNCATED);
    };
    let count = usize::from(*count);
    let wanted = count / 2 + count % 2;
    if others.len() < wanted {
        return cursor.fail(TRUNCATED);
    }
    *size = count;
    if text.len() < count {
        return SHORT_BUFFER;
    }
    fill_bytes(others, &mut text[..count]);
    cursor.place += 1 + wanted;
    OK
}
