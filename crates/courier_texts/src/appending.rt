//! A text that grows within its limit.

ghost use Rattle.std.specs.Prelude.{◌≤◌, vec_len};
ghost use Rattle.courier_texts.specs.Appending.{Appends, most_text};

use crate::text_refusal::TextRefusal;

/// The number of bytes of a text.
pub const MOST_TEXT: usize = 1_048_576;

/// Appends the bytes.
pub fn append(out: &mut Vec<u8>, bytes: &[u8]) -> Result<(), TextRefusal>
    requires { vec_len out.old ≤ most_text }
    ensures { Appends result bytes.now out.old out.new }
{
    if MOST_TEXT - out.len() < bytes.len() {
        return Err(TextRefusal::LongText);
    }
    out.extend_from_slice(bytes)
        .map_err(|_| TextRefusal::NoMemory)
}
