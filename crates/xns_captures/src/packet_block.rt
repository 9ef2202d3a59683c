//! The blocks of a pcapng file that hold a frame.
ghost use Rattle.std.specs.Prelude.{◌≡◌, ◌≤◌, IfOk, length, slice_get};
ghost use Rattle.std.specs.List.{list_any};
ghost use Rattle.xns_captures.specs.Links.{is_link_read};
ghost use Rattle.xns_captures.specs.Parts.{IsWithin, frame_of as frame_of_block, is_link_taken as is_taken_link};
ghost use Rattle.xns_captures.specs.Parts.{kept_count as kept_count_of, simple_in, time_by as time_of_interface, timed_in};

use crate::block::{Block, check_lengths};
use crate::fault::CaptureFault;
use crate::frame::Frame;
use crate::frame_time::FrameTime;
use crate::interface::Interface;
use crate::limits::MOST_FRAME_BYTES;
use crate::link::is_link_read;
use crate::part::Part;
use crate::places::{read_count, read_long};

impl Block<'_> {
    /// A packet with a time, of the interface with this number.
    pub(crate) fn read_timed(&self, number: usize) -> Result<Part, CaptureFault>
        ensures value { result ≡ timed_in number self.now.order self.now.interfaces.now self.now.bytes.now }
        ensures fits { IfOk result (IsWithin (length self.now.bytes.now)) }
    {
        check_lengths(self.order, 32, self.bytes)?;
        let interface = interface_at(self.interfaces, number);
        let time = time_of(interface, read_count(self.order, self.bytes, 12));
        let count = read_long(self.order, self.bytes, 20);
        frame_of(
            self.interfaces,
            interface,
            28,
            count,
            time,
            self.bytes.len(),
        )
    }

    /// A simple packet, of the first interface, which does not say how much of it was captured.
    pub(crate) fn read_simple(&self) -> Result<Part, CaptureFault>
        ensures value { result ≡ simple_in self.now.order self.now.interfaces.now self.now.bytes.now }
        ensures fits { IfOk result (IsWithin (length self.now.bytes.now)) }
    {
        check_lengths(self.order, 16, self.bytes)?;
        let interface = interface_at(self.interfaces, 0);
        let count = kept_count(interface, read_long(self.order, self.bytes, 8));
        frame_of(
            self.interfaces,
            interface,
            12,
            count,
            None,
            self.bytes.len(),
        )
    }
}

/// The interface with this number, if it is described.
fn interface_at(interfaces: &[Interface], number: usize) -> Option<Interface>
    ensures { result ≡ slice_get interfaces.now number }
{
    interfaces.get(number).copied()
}

/// How many bytes of a frame of so many were kept.
fn kept_count(interface: Option<Interface>, count: u32) -> u32
    ensures { result ≡ kept_count_of interface count }
{
    match interface {
        Some(interface) => {
            if interface.most == 0 || count <= interface.most {
                count
            } else {
                interface.most
            }
        }
        None => count,
    }
}

/// When a frame of an interface was captured, by a count of units since 1970.
fn time_of(interface: Option<Interface>, count: u64) -> Option<FrameTime>
    ensures { result ≡ time_of_interface interface count }
{
    Some(FrameTime {
        count,
        resolution: interface?.resolution,
    })
}

/// Whether frames of a link are read, or passed over, in a section with these interfaces.
fn is_link_taken(link: u16, interfaces: &[Interface]) -> bool
    ensures { result ≡ is_taken_link link interfaces.now }
{
    is_link_read(link) || has_read_link(interfaces)
}

/// Whether one of these interfaces has a link that is read.
fn has_read_link(interfaces: &[Interface]) -> bool
    ensures { result ≡ list_any (λ other. is_link_read other.link) interfaces.now }
{
    interfaces.iter().any(|other| is_link_read(other.link))
}

/// A frame of an interface, which begins at a place of a block of so many bytes.
fn frame_of(
    interfaces: &[Interface],
    interface: Option<Interface>,
    start: usize,
    count: u32,
    time: Option<FrameTime>,
    total: usize,
) -> Result<Part, CaptureFault>
    requires { start ≤ 28 }
    ensures value { result ≡ frame_of_block interfaces.now interface start count time total }
    ensures fits { IfOk result (IsWithin total) }
{
    let Some(interface) = interface else {
        return Err(CaptureFault::NoInterface);
    };
    if !is_link_taken(interface.link, interfaces) {
        return Err(CaptureFault::UnreadLink(interface.link));
    }
    if count > MOST_FRAME_BYTES {
        return Err(CaptureFault::TooLong);
    }
    let count = count as usize;
    if total < start + count + 4 {
        return Err(CaptureFault::Lengths);
    }
    Ok(Part::Frame(Frame {
        link: interface.link,
        start,
        count,
        time,
    }))
}
