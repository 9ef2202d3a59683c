//! The parts of a capture.
use crate::format::Format;
use crate::frame::Frame;
use crate::interface::Interface;

/// What a part of a capture holds.
#[derive(Clone, Copy, Debug, PartialEq, Eq)]
pub enum Part {
    /// A file or a section begins, with no interface yet.
    Begins(Format),
    /// The next interface of the section.
    Interface(Interface),
    /// A frame.
    Frame(Frame),
    /// Nothing that is read: this comes behind it.
    Continues(Format),
    /// A block that is no packet, and has a number as a frame in Wireshark: this comes behind it.
    Counted(Format),
}
