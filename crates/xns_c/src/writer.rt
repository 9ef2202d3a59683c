//! Courier's values, written as words at a cursor (XSIS 038112, Courier, Standard representation).
//!
//! After a fault each function returns that fault, and changes nothing. `SHORT_BUFFER` where the buffer has no room for all words of the value.

ghost use Rattle.std.specs.Prelude.{◌≡◌, ◌≢◌, ◌<◌, ◌≤◌, ◌+◌, ◌^◌, [], ◌∷◌, length};
ghost use Rattle.courier_types.specs.Spelling.{bytes_spelling, value_spelling};
ghost use Rattle.courier_types.specs.Value.{ValueModel};
ghost use Rattle.xns_c.specs.Cursor.{faulted, Puts, WritesValue, WritesWords};
ghost use Rattle.xns_c.specs.Given.{is_yes};
ghost use Rattle.xns_c.specs.Results.{ok, over_maximum, too_long};

use crate::cursor::XnsCursor;
use crate::results::{OK, OVER_MAXIMUM, SHORT_BUFFER, TOO_LONG};

/// The most bytes that a text has.
const MOST_TEXT: usize = 65_535;

/// Puts these words at the place of the cursor, which is behind them then.
fn put(words: &[u16], buffer: &mut [u16], cursor: &mut XnsCursor) -> u32
    ensures { Puts words.now cursor.old cursor.new buffer.old buffer.new result }
{
    if cursor.fault != OK {
        return cursor.fault;
    }
    let size = words.len();
    if cursor.place > buffer.len() || buffer.len() - cursor.place < size {
        return cursor.fail(SHORT_BUFFER);
    }
    let end = cursor.place + size;
    buffer[cursor.place..end].copy_from_slice(words);
    cursor.place = end;
    OK
}

/// Fills words with a text: the number of its bytes, then the bytes, two a word, the first one high. The spare byte of an odd number is 0.
fn fill_text(bytes: &[u8], words: &mut [u16])
    requires short { length bytes.now < 2 ^ 16 }
    requires room { length words.old ≡ 1 + length (bytes_spelling bytes.now) }
    ensures { words.new ≡ length bytes.now ∷ bytes_spelling bytes.now }
{
    words[0] = bytes.len() as u16;
    let mut rest = bytes;
    let mut place = 1;
    while let [high, low, others @ ..] = rest {
        words[place] = u16::from(*high) * 256 + u16::from(*low);
        place += 1;
        rest = others;
    }
    if let [high] = rest {
        words[place] = u16::from(*high) * 256;
    }
}

/// Writes a cardinal, one word.
#[unsafe(no_mangle)]
pub extern "C" fn xns_write_cardinal(buffer: &mut [u16], cursor: &mut XnsCursor, value: u16) -> u32
    ensures { WritesValue (ValueModel.cardinal value) cursor.old cursor.new buffer.old buffer.new result }
{
    put(&[value], buffer, cursor)
}

/// Writes a long cardinal, two words.
#[unsafe(no_mangle)]
pub extern "C" fn xns_write_long_cardinal(
    buffer: &mut [u16],
    cursor: &mut XnsCursor,
    value: u32,
) -> u32
    ensures { WritesValue (ValueModel.long_cardinal value) cursor.old cursor.new buffer.old buffer.new result }
{
    put(
        &[(value / 65536) as u16, (value % 65536) as u16],
        buffer,
        cursor,
    )
}

/// Writes an integer, one word.
#[unsafe(no_mangle)]
pub extern "C" fn xns_write_integer(buffer: &mut [u16], cursor: &mut XnsCursor, value: i16) -> u32
    ensures { WritesValue (ValueModel.integer value) cursor.old cursor.new buffer.old buffer.new result }
{
    put(&[value.cast_unsigned()], buffer, cursor)
}

/// Writes a long integer, two words.
#[unsafe(no_mangle)]
pub extern "C" fn xns_write_long_integer(
    buffer: &mut [u16],
    cursor: &mut XnsCursor,
    value: i32,
) -> u32
    ensures { WritesValue (ValueModel.long_integer value) cursor.old cursor.new buffer.old buffer.new result }
{
    xns_write_long_cardinal(buffer, cursor, value.cast_unsigned())
}

/// Writes a boolean, one word. `value` is 0 for no.
#[unsafe(no_mangle)]
pub extern "C" fn xns_write_boolean(buffer: &mut [u16], cursor: &mut XnsCursor, value: u8) -> u32
    ensures { WritesValue (ValueModel.boolean (is_yes value)) cursor.old cursor.new buffer.old buffer.new result }
{
    put(&[u16::from(value != 0)], buffer, cursor)
}

/// Writes the count of a sequence, one word, which is at most this one: so many elements are to be written.
///
/// `OVER_MAXIMUM` where it is above.
#[unsafe(no_mangle)]
pub extern "C" fn xns_write_count(
    buffer: &mut [u16],
    cursor: &mut XnsCursor,
    most: u16,
    count: usize,
) -> u32
    ensures written { cursor.old.fault ≡ ok → count ≤ most → WritesWords (count ∷ []) cursor.old cursor.new buffer.old buffer.new result }
    ensures over { cursor.old.fault ≡ ok → most < count → (result ≡ over_maximum) × (cursor.new ≡ faulted cursor.old over_maximum)
        × (buffer.new ≡ buffer.old) }
    ensures stays { cursor.old.fault ≢ ok → (result ≡ cursor.old.fault) × (cursor.new ≡ cursor.old) × (buffer.new ≡ buffer.old) }
{
    if cursor.fault != OK {
        return cursor.fault;
    }
    if count > usize::from(most) {
        return cursor.fail(OVER_MAXIMUM);
    }
    put(&[count as u16], buffer, cursor)
}

/// Writes a text: the number of its bytes, then the bytes, two a word. The spare byte of an odd number is 0.
///
/// `TOO_LONG` for more than 65,535 bytes, which are not looked at.
#[unsafe(no_mangle)]
#[tactic(auto, using(courier_types::proofs::Counted::bytes_count))]
pub extern "C" fn xns_write_text(buffer: &mut [u16], cursor: &mut XnsCursor, bytes: &[u8]) -> u32
    ensures written { cursor.old.fault ≡ ok → length bytes.now < 2 ^ 16
        → WritesWords (value_spelling (ValueModel.text bytes.now)) cursor.old cursor.new buffer.old buffer.new result }
    ensures long { cursor.old.fault ≡ ok → 2 ^ 16 ≤ length bytes.now → (result ≡ too_long) × (cursor.new ≡ faulted cursor.old too_long)
        × (buffer.new ≡ buffer.old) }
    ensures stays { cursor.old.fault ≢ ok → (result ≡ cursor.old.fault) × (cursor.new ≡ cursor.old) × (buffer.new ≡ buffer.old) }
{
    if cursor.fault != OK {
        return cursor.fault;
    }
    let count = bytes.len();
    if count > MOST_TEXT {
        return cursor.fail(TOO_LONG);
    }
    let size = 1 + (count / 2 + count % 2);
    if cursor.place > buffer.len() || buffer.len() - cursor.place < size {
        return cursor.fail(SHORT_BUFFER);
    }
    let end = cursor.place + size;
    fill_text(bytes, &mut buffer[cursor.place..end]);
    cursor.place = end;
    OK
}
