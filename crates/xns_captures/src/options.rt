//! The options of a block.
ghost use Rattle.std.specs.Prelude.{◌≡◌, ◌==◌, ◌&&◌};
ghost use Rattle.xns_captures.specs.Times.{resolution_of};

use crate::byte_order::ByteOrder;
use crate::places::{behind, byte_at, read_word};

/// The code that ends a list of options.
const END: u16 = 0;
/// The code of the resolution of an interface's times.
const RESOLUTION: u16 = 9;
/// The resolution where no option gives one: microseconds.
const MICROSECONDS: u8 = 6;

/// The resolution that the options of an interface give.
pub fn read_resolution(order: ByteOrder, options: &[u8]) -> u8
    ensures { result ≡ resolution_of order options.now }
{
    let mut rest = options;
    while rest.len() >= 4 {
        let code = read_word(order, rest, 0);
        let size = read_word(order, rest, 2);
        if code == END {
            return MICROSECONDS;
        }
        if is_resolution(code, size) {
            return byte_at(rest, 4);
        }
        rest = behind(rest, 4 + (usize::from(size) + 3) / 4 * 4);
    }
    MICROSECONDS
}

/// Whether an option of that code, with a value of so many bytes, gives the resolution.
fn is_resolution(code: u16, size: u16) -> bool
    ensures { result ≡ (code == 9 && size == 1) }
{
    code == RESOLUTION && size == 1
}
