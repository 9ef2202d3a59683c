//! Classic captures: the header of the file, and its records.
ghost use Rattle.std.specs.Prelude.{◌≡◌, ◌+◌, ◌≤◌, IfOk, Ok, length};
ghost use Rattle.xns_captures.specs.Parts.{IsWithin, header_in, record_in, record_size as record_size_of, record_time};

use crate::byte_order::ByteOrder;
use crate::fault::CaptureFault;
use crate::format::Format;
use crate::frame::Frame;
use crate::frame_time::FrameTime;
use crate::limits::MOST_FRAME_BYTES;
use crate::link::is_link_read;
use crate::magic::NANOSECONDS;
use crate::part::Part;
use crate::places::{read_long, read_word};

/// The bytes of the header of a file, and of the head of a record.
pub const HEADER_BYTES: usize = 24;

pub const RECORD_HEAD_BYTES: usize = 16;
/// The version that is read.
const MAJOR: u16 = 2;

const MINOR: u16 = 4;

/// What the header of a file says.
pub fn read_header(order: ByteOrder, bytes: &[u8]) -> Result<Part, CaptureFault>
    ensures value { result ≡ header_in order bytes.now }
    ensures fits { IfOk result (IsWithin (length bytes.now)) }
{
    if bytes.len() < HEADER_BYTES {
        return Err(CaptureFault::Cut);
    }
    if read_word(order, bytes, 4) != MAJOR || read_word(order, bytes, 6) != MINOR {
        return Err(CaptureFault::Version);
    }
    let link = (read_long(order, bytes, 20) % 65536) as u16;
    if !is_link_read(link) {
        return Err(CaptureFault::UnreadLink(link));
    }
    let is_nano = read_long(order, bytes, 0) == NANOSECONDS;
    Ok(Part::Begins(Format::Records {
        order,
        link,
        is_nano,
    }))
}

/// How many bytes a record has, by its head.
pub fn record_size(order: ByteOrder, head: &[u8]) -> Result<usize, CaptureFault>
    requires { 16 ≤ length head.now }
    ensures { result ≡ record_size_of order head.now }
{
    let count = read_long(order, head, 8);
    if count > MOST_FRAME_BYTES {
        return Err(CaptureFault::TooLong);
    }
    Ok(RECORD_HEAD_BYTES + count as usize)
}

/// The frame of a record.
#[inline(always)]
pub fn read_record(order: ByteOrder, link: u16, is_nano: bool, bytes: &[u8]) -> Frame
    requires { 16 ≤ length bytes.now }
    ensures value { Ok (Part.Frame result) ≡ record_in order link is_nano bytes.now }
    ensures fits { result.start + result.count ≤ length bytes.now }
{
    Frame {
        link,
        start: RECORD_HEAD_BYTES,
        count: bytes.len() - RECORD_HEAD_BYTES,
        time: Some(read_time(order, is_nano, bytes)),
    }
}

/// When the frame of a record was captured: its head has the seconds since 1970, and then millionths or billionths of one.
fn read_time(order: ByteOrder, is_nano: bool, bytes: &[u8]) -> FrameTime
    requires { 16 ≤ length bytes.now }
    ensures { result ≡ record_time order is_nano bytes.now }
{
    let seconds = u64::from(read_long(order, bytes, 0));
    let fraction = u64::from(read_long(order, bytes, 4));
    if is_nano {
        FrameTime {
            count: seconds * 1_000_000_000 + fraction,
            resolution: 9,
        }
    } else {
        FrameTime {
            count: seconds * 1_000_000 + fraction,
            resolution: 6,
        }
    }
}
