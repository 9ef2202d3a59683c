//! The first bytes of a capture.
ghost use Rattle.std.specs.Prelude.{◌≡◌, ◌≤◌, length};
ghost use Rattle.xns_captures.specs.Parts.{classic_order as classic_order_of, is_capture as is_capture_of, is_classic as is_classic_of};

use crate::byte_order::ByteOrder;
use crate::places::read_long;

/// The block type of a section header.
pub const SECTION: u32 = 0x0a0d_0d0a;
/// The magic numbers of classic captures, with times in microseconds and in nanoseconds.
const MICROSECONDS: u32 = 0xa1b2_c3d4;

pub const NANOSECONDS: u32 = 0xa1b2_3c4d;

/// Whether a file that begins with these bytes is a capture: four bytes tell.
pub fn is_capture(bytes: &[u8]) -> bool
    ensures { result ≡ is_capture_of bytes.now }
{
    if bytes.len() < 4 {
        return false;
    }
    read_long(ByteOrder::Big, bytes, 0) == SECTION || classic_order(bytes).is_some()
}

/// The order of bytes by the magic number of a classic capture.
pub fn classic_order(bytes: &[u8]) -> Option<ByteOrder>
    requires { 4 ≤ length bytes.now }
    ensures { result ≡ classic_order_of bytes.now }
{
    if is_classic(read_long(ByteOrder::Big, bytes, 0)) {
        return Some(ByteOrder::Big);
    }
    if is_classic(read_long(ByteOrder::Little, bytes, 0)) {
        return Some(ByteOrder::Little);
    }
    None
}

fn is_classic(magic: u32) -> bool
    ensures { result ≡ is_classic_of magic }
{
    magic == MICROSECONDS || magic == NANOSECONDS
}
