//! The blocks of a pcapng file.
ghost use Rattle.std.specs.Prelude.{◌≡◌, ◌≤◌, ◌-◌, ℕ, false, true, IfErr, IfOk, OnOk, drop, length, take};
ghost use Rattle.xns_captures.specs.Times.{resolution_of};
ghost use Rattle.xns_captures.specs.Parts.{block_in, block_of_type, block_size as block_size_of, block_size_in};
ghost use Rattle.xns_captures.specs.Parts.{IsWithin, has_lengths as has_lengths_in, interface_in};
ghost use Rattle.xns_captures.specs.Parts.{is_counted as is_counted_kind, is_read as is_read_kind, long_size as long_size_of};
ghost use Rattle.xns_captures.specs.Parts.{other_in, passed_over as passed_over_of, section_in_order};
ghost use Rattle.xns_captures.specs.Parts.{section_order as section_order_of};

use crate::byte_order::ByteOrder;
use crate::fault::CaptureFault;
use crate::format::Format;
use crate::interface::Interface;
use crate::limits::{MOST_BLOCK_BYTES, MOST_INTERFACES};
use crate::magic::SECTION;
use crate::options::read_resolution;
use crate::part::Part;
use crate::places::{read_long, read_word};

/// The bytes of the head of a block, and of the shortest block.
pub const BLOCK_HEAD_BYTES: usize = 12;
/// The magic number of a section's order of bytes.
const ORDER: u32 = 0x1a2b_3c4d;

/// A block of a section. It has at least the bytes of a head.
#[derive(Drop)]
pub struct Block<'a> {
    /// The order of bytes in the section that it stands in. A section header says its own.
    pub order: ByteOrder,
    /// The interfaces that the section has described so far.
    pub interfaces: &'a [Interface],
    /// The bytes of the block.
    pub bytes: &'a [u8],
    ghost has_head: { 12 ≤ length bytes.now },
}

/// The types of blocks that are read.
const INTERFACE: u32 = 1;

const OLD_PACKET: u32 = 2;

const SIMPLE_PACKET: u32 = 3;

const ENHANCED_PACKET: u32 = 6;

/// The types of blocks that are no packets, and have numbers as frames in Wireshark.
const JOURNAL_ENTRY: u32 = 9;

const SYSTEM_CALL: u32 = 0x204;

const CUSTOM: u32 = 0xbad;

const CUSTOM_NOT_COPIED: u32 = 0x4000_0bad;

/// How many bytes a block has, by its head.
pub fn block_size(order: ByteOrder, head: &[u8]) -> Result<usize, CaptureFault>
    requires { 12 ≤ length head.now }
    ensures { result ≡ block_size_of order head.now }
{
    if read_long(order, head, 0) != SECTION {
        return size_in(order, head);
    }
    match section_order(head) {
        Some(order) => size_in(order, head),
        None => Err(CaptureFault::Order),
    }
}

/// How many bytes a block has, whose numbers are in that order.
fn size_in(order: ByteOrder, head: &[u8]) -> Result<usize, CaptureFault>
    requires { 12 ≤ length head.now }
    ensures { result ≡ block_size_in order head.now }
{
    let total = read_long(order, head, 4);
    if total < 12 || total % 4 != 0 {
        return Err(CaptureFault::Lengths);
    }
    if total > MOST_BLOCK_BYTES {
        return long_size(read_long(order, head, 0));
    }
    Ok(total as usize)
}

/// How many bytes are a part of a block that is too long to be read whole: its head, where it is of no type that is read.
fn long_size(kind: u32) -> Result<usize, CaptureFault>
    ensures { result ≡ long_size_of kind }
{
    if is_read(kind) {
        return Err(CaptureFault::TooLong);
    }
    Ok(BLOCK_HEAD_BYTES)
}

/// Whether blocks of that type are read.
fn is_read(kind: u32) -> bool
    ensures { result ≡ is_read_kind kind }
{
    kind == SECTION
        || kind == INTERFACE
        || kind == OLD_PACKET
        || kind == SIMPLE_PACKET
        || kind == ENHANCED_PACKET
}

/// The order of bytes by the magic number of a section header.
fn section_order(bytes: &[u8]) -> Option<ByteOrder>
    requires { 12 ≤ length bytes.now }
    ensures { result ≡ section_order_of bytes.now }
{
    if read_long(ByteOrder::Big, bytes, 8) == ORDER {
        return Some(ByteOrder::Big);
    }
    if read_long(ByteOrder::Little, bytes, 8) == ORDER {
        return Some(ByteOrder::Little);
    }
    None
}

/// Refuses a block that is shorter than so many bytes, or whose length at the end is another than its own.
pub(crate) fn check_lengths(
    order: ByteOrder,
    least: usize,
    bytes: &[u8],
) -> Result<(), CaptureFault>
    requires { 4 ≤ length bytes.now }
    ensures ok { OnOk result (has_lengths_in order least bytes.now ≡ true) }
    ensures least { OnOk result (least ≤ length bytes.now) }
    ensures err { IfErr result (λ fault. (fault ≡ CaptureFault.Lengths) × (has_lengths_in order least bytes.now ≡ false)) }
{
    let total = bytes.len();
    if total < least || read_long(order, bytes, total - 4) as usize != total {
        return Err(CaptureFault::Lengths);
    }
    Ok(())
}

/// A section header.
fn read_section(bytes: &[u8]) -> Result<Part, CaptureFault>
    requires { 12 ≤ length bytes.now }
    ensures value { result ≡ section_in_order (section_order_of bytes.now) bytes.now }
    ensures fits { IfOk result (IsWithin (length bytes.now)) }
{
    let Some(order) = section_order(bytes) else {
        return Err(CaptureFault::Order);
    };
    check_lengths(order, 28, bytes)?;
    let minor = read_word(order, bytes, 14);
    if read_word(order, bytes, 12) != 1 || (minor != 0 && minor != 2) {
        return Err(CaptureFault::Version);
    }
    Ok(Part::Begins(Format::Blocks { order }))
}

impl Block<'_> {
    /// What the block holds.
    #[tactic(auto, unfolding(crate::specs::Parts::block_in))]
    pub fn read(&self) -> Result<Part, CaptureFault>
        ensures value { result ≡ block_in self.now.order self.now.interfaces.now self.now.bytes.now }
        ensures fits { IfOk result (IsWithin (length self.now.bytes.now)) }
    {
        let kind = read_long(self.order, self.bytes, 0);
        if kind == SECTION {
            return read_section(self.bytes);
        }
        self.read_other(kind)
    }

    /// A block that is no section header, by its type. An enhanced packet has a long number of its interface, and the obsolete packet
    /// a short one.
    #[tactic(auto, unfolding(crate::specs::Parts::block_of_type))]
    fn read_other(&self, kind: u32) -> Result<Part, CaptureFault>
        ensures value { result ≡ block_of_type kind self.now.order self.now.interfaces.now self.now.bytes.now }
        ensures fits { IfOk result (IsWithin (length self.now.bytes.now)) }
    {
        match kind {
            INTERFACE => self.read_interface(),
            ENHANCED_PACKET => self.read_timed(read_long(self.order, self.bytes, 8) as usize),
            OLD_PACKET => self.read_timed(usize::from(read_word(self.order, self.bytes, 8))),
            SIMPLE_PACKET => self.read_simple(),
            _ => self.pass_over(kind),
        }
    }

    /// An interface description.
    fn read_interface(&self) -> Result<Part, CaptureFault>
        ensures value { result ≡ interface_in self.now.order self.now.interfaces.now self.now.bytes.now }
        ensures fits { IfOk result (IsWithin (length self.now.bytes.now)) }
    {
        check_lengths(self.order, 20, self.bytes)?;
        if self.interfaces.len() >= MOST_INTERFACES {
            return Err(CaptureFault::TooManyInterfaces);
        }
        Ok(Part::Interface(Interface {
            link: read_word(self.order, self.bytes, 8),
            most: read_long(self.order, self.bytes, 12),
            resolution: interface_resolution(self.order, self.bytes),
        }))
    }

    /// A block of any other type, or the head of a long one.
    fn pass_over(&self, kind: u32) -> Result<Part, CaptureFault>
        ensures value { result ≡ other_in kind self.now.order self.now.bytes.now }
        ensures fits { IfOk result (IsWithin (length self.now.bytes.now)) }
    {
        let order = self.order;
        let total = read_long(order, self.bytes, 4);
        if total > MOST_BLOCK_BYTES {
            let total = total as usize;
            let left = total - BLOCK_HEAD_BYTES;
            return Ok(passed_over(kind, Format::Passing { order, left, total }));
        }
        check_lengths(order, 12, self.bytes)?;
        Ok(passed_over(kind, Format::Blocks { order }))
    }
}

/// The resolution of the times of an interface, whose options stand before the length at the end of its description.
fn interface_resolution(order: ByteOrder, bytes: &[u8]) -> u8
    requires { 20 ≤ length bytes.now }
    ensures { result ≡ resolution_of order (drop 16 (take (length bytes.now - 4) bytes.now)) }
{
    let total = bytes.len();
    read_resolution(order, &bytes[..total - 4][16..])
}

/// A block that is passed over, with what comes behind these bytes of it.
fn passed_over(kind: u32, next: Format) -> Part
    ensures value { result ≡ passed_over_of kind next }
    ensures fits { (count : ℕ) → IsWithin count result }
{
    if is_counted(kind) {
        return Part::Counted(next);
    }
    Part::Continues(next)
}

/// Whether a block that is no packet has a number as a frame.
fn is_counted(kind: u32) -> bool
    ensures { result ≡ is_counted_kind kind }
{
    kind == JOURNAL_ENTRY || kind == SYSTEM_CALL || kind == CUSTOM || kind == CUSTOM_NOT_COPIED
}
