//! The next part of a capture.
ghost use Rattle.std.specs.Prelude.{◌≡◌, ◌≤◌, IfOk, length};
ghost use Rattle.xns_captures.specs.Parts.{IsWithin, file_in, file_size as file_size_of, head_count, part_of, size_of};

use crate::block::{BLOCK_HEAD_BYTES, Block, block_size};
use crate::byte_order::ByteOrder;
use crate::fault::CaptureFault;
use crate::format::Format;
use crate::interface::Interface;
use crate::magic::{SECTION, classic_order};
use crate::part::Part;
use crate::passing::{LENGTH_BYTES, read_rest, rest_bytes};
use crate::places::read_long;
use crate::record::{HEADER_BYTES, RECORD_HEAD_BYTES, read_header, read_record, record_size};

/// How many bytes the head of the next part has.
pub fn head_bytes(format: Format) -> usize
    ensures { result ≡ head_count format }
{
    match format {
        Format::Records { .. } => RECORD_HEAD_BYTES,
        Format::Passing { .. } => LENGTH_BYTES,
        _ => BLOCK_HEAD_BYTES,
    }
}

/// How many bytes the next part has, by its head.
#[tactic(auto, unfolding(crate::specs::Parts::size_of))]
#[inline(always)]
pub fn part_bytes(format: Format, head: &[u8]) -> Result<usize, CaptureFault>
    requires { head_count format ≤ length head.now }
    ensures { result ≡ size_of format head.now }
{
    match format {
        Format::Unread => file_size(head),
        Format::Records { order, .. } => record_size(order, head),
        Format::Blocks { order } => block_size(order, head),
        Format::Passing { left, .. } => Ok(rest_bytes(left)),
    }
}

/// What the next part holds, which has these bytes, in a section with these interfaces.
#[tactic(auto, unfolding(crate::specs::Parts::part_of))]
#[inline(always)]
pub fn read_part(
    format: Format,
    interfaces: &[Interface],
    bytes: &[u8],
) -> Result<Part, CaptureFault>
    requires { head_count format ≤ length bytes.now }
    ensures value { result ≡ part_of format interfaces.now bytes.now }
    ensures fits { IfOk result (IsWithin (length bytes.now)) }
{
    match format {
        Format::Unread => read_first(interfaces, bytes),
        Format::Records {
            order,
            link,
            is_nano,
        } => Ok(Part::Frame(read_record(order, link, is_nano, bytes))),
        Format::Blocks { order } => {
            let block = Block {
                order,
                interfaces,
                bytes,
            };
            block.read()
        }
        Format::Passing { order, left, total } => read_rest(order, left, total, bytes),
    }
}

/// How many bytes the first part of a file has.
fn file_size(head: &[u8]) -> Result<usize, CaptureFault>
    requires { 12 ≤ length head.now }
    ensures { result ≡ file_size_of head.now }
{
    if read_long(ByteOrder::Big, head, 0) == SECTION {
        return block_size(ByteOrder::Big, head);
    }
    match classic_order(head) {
        Some(_) => Ok(HEADER_BYTES),
        None => Err(CaptureFault::NoCapture),
    }
}

/// What the first part of a file holds.
fn read_first(interfaces: &[Interface], bytes: &[u8]) -> Result<Part, CaptureFault>
    requires { 12 ≤ length bytes.now }
    ensures value { result ≡ file_in interfaces.now bytes.now }
    ensures fits { IfOk result (IsWithin (length bytes.now)) }
{
    if read_long(ByteOrder::Big, bytes, 0) == SECTION {
        let block = Block {
            order: ByteOrder::Big,
            interfaces,
            bytes,
        };
        return block.read();
    }
    match classic_order(bytes) {
        Some(order) => read_header(order, bytes),
        None => Err(CaptureFault::NoCapture),
    }
}
