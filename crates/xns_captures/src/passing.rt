//! Long blocks, which are passed over part by part.
ghost use Rattle.std.specs.Prelude.{◌≡◌, ◌≤◌, IfOk, Ok, length};
ghost use Rattle.xns_captures.specs.Parts.{IsWithin, rest_in, rest_size};

use crate::byte_order::ByteOrder;
use crate::fault::CaptureFault;
use crate::format::Format;
use crate::part::Part;
use crate::places::read_long;

/// The bytes of the length at the end of a block.
pub const LENGTH_BYTES: usize = 4;
/// A part of a long block has at most so many bytes.
const MOST_PASSED_BYTES: usize = 65536;

/// How many bytes the next part of a long block has, of which so many are left.
pub fn rest_bytes(left: usize) -> usize
    ensures { Ok result ≡ rest_size left }
{
    left.min(MOST_PASSED_BYTES).max(LENGTH_BYTES)
}

/// A part of a long block of so many bytes in all, of which some are left. The last part ends in the length of the block.
pub fn read_rest(
    order: ByteOrder,
    left: usize,
    total: usize,
    bytes: &[u8],
) -> Result<Part, CaptureFault>
    requires { 4 ≤ length bytes.now }
    ensures value { result ≡ rest_in order left total bytes.now }
    ensures fits { IfOk result (IsWithin (length bytes.now)) }
{
    let count = bytes.len();
    if count < left {
        let left = left - count;
        return Ok(Part::Continues(Format::Passing { order, left, total }));
    }
    if read_long(order, bytes, count - LENGTH_BYTES) as usize != total {
        return Err(CaptureFault::Lengths);
    }
    Ok(Part::Continues(Format::Blocks { order }))
}
