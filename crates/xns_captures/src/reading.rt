//! What is known of a capture while it is read.
ghost use Rattle.std.specs.Prelude.{◌≡◌, ◌≤◌, ◌<◌, ◌+◌, ◌++◌, ◌∷◌, ℕ, List, [], Option, Ok, Some, None, IfErr, IfOk, IfSome, OnOk, length, drop};
ghost use Rattle.std.specs.Option.{option_or};
ghost use Rattle.xns_captures.specs.Captures.{FrameBytes, contents, ends_with, packets_in};
ghost use Rattle.xns_captures.specs.Parts.{most_block_bytes, most_interfaces, part_of};

use crate::fault::CaptureFault;
use crate::file_fault::FileFault;
use crate::format::Format;
use crate::frame::Frame;
use crate::frame_time::FrameTime;
use crate::interface::Interface;
use crate::limits::MOST_FRAMES;
use crate::link::packet_in;
use crate::part::Part;
use crate::record::read_record;
use crate::stamp::Stamp;
use crate::step::{head_bytes, part_bytes, read_part};
use crate::taker::PacketTaker;
use std::alloc::Global;
use std::io::Write;
use xns_lines::RunFault;

/// What is known of a capture between two of its parts. It has no more interfaces than a section may describe.
#[derive(Drop)]
pub(crate) struct Reading {
    /// What its parts are.
    format: Format,
    /// The interfaces of the section.
    interfaces: Vec<Interface>,
    /// How many frames came.
    count: usize,
    /// The first time that a frame has.
    first: Option<FrameTime>,
    ghost few: { length interfaces.items ≤ most_interfaces },
}

/// The first time, where there is one, and else the other. It is copied field by field, which is faster than a copy of all its bytes.
#[inline(always)]
fn first_of(first: Option<FrameTime>, time: Option<FrameTime>) -> Option<FrameTime>
    ensures { result ≡ option_or first time }
{
    match first {
        Some(FrameTime { count, resolution }) => Some(FrameTime { count, resolution }),
        None => time,
    }
}

impl Reading {
    ghost use Rattle.xns_captures.specs.Reading.{HasRead, HasStopped, IsWholePart, StandsAfter, StopsAtFrame, StopsInPart, TakesPart, end_in, first_among};

    /// Nothing was read yet.
    pub(crate) fn new(alloc: Global) -> Self
        ensures format { result.format ≡ Format.Unread }
        ensures interfaces { result.interfaces.items ≡ [] }
        ensures count { result.count ≡ 0 }
        ensures first { result.first ≡ None }
    {
        Reading {
            format: Format::Unread,
            interfaces: Vec::new(alloc),
            count: 0,
            first: None,
        }
    }

    /// How many bytes the next part has, where it is there whole.
    #[inline(always)]
    fn whole_part(&self, bytes: &[u8]) -> Result<Option<usize>, CaptureFault>
        ensures some { IfOk result (λ found. IfSome found (IsWholePart self.now.format bytes.now)) }
        ensures none { result ≡ Ok None
            → contents self.now.format self.now.interfaces.items bytes.now ≡ ends_with (end_in self.now.format bytes.now) }
        ensures few { result ≡ Ok None → length bytes.now < most_block_bytes }
        ensures err { IfErr result (λ fault. (rest : List ℕ)
            → contents self.now.format self.now.interfaces.items (bytes.now ++ rest) ≡ ends_with (Some fault)) }
    {
        let head = head_bytes(self.format);
        if bytes.len() < head {
            return Ok(None);
        }
        let size = match part_bytes(self.format, &bytes[..head]) {
            Ok(size) => size,
            Err(fault) => return Err(fault),
        };
        if bytes.len() < size {
            return Ok(None);
        }
        Ok(Some(size))
    }

    /// Why a file that ends in these bytes, of no whole part, is not whole.
    pub(crate) fn end_fault(&self, bytes: &[u8]) -> Option<CaptureFault>
        ensures { result ≡ end_in self.now.format bytes.now }
    {
        if !bytes.is_empty() {
            return Some(CaptureFault::Cut);
        }
        match self.format {
            Format::Passing { .. } => Some(CaptureFault::Cut),
            _ => None,
        }
    }

    /// Takes all parts that are there whole, and says how many bytes they have. What it leaves is no whole part, and so has
    /// fewer bytes than the longest.
    pub(crate) fn take_parts<T: PacketTaker, W: Write>(
        &mut self,
        bytes: &[u8],
        taker: &mut T,
        writer: &mut W,
    ) -> Result<usize, FileFault>
        ensures fits { IfOk result (λ taken. taken ≤ length bytes.now) }
        ensures ok { IfOk result (λ taken. (read : List ℕ) (before : Option (List ℕ))
            → HasRead self.old read bytes.now (T.stands taker.old before (W.contents writer.old))
            → HasRead self.new read (drop taken bytes.now) (T.stands taker.new before (W.contents writer.new))) }
        ensures rest { IfOk result (λ taken. contents self.new.format self.new.interfaces.items (drop taken bytes.now)
            ≡ ends_with (end_in self.new.format (drop taken bytes.now))) }
        ensures few { IfOk result (λ taken. length (drop taken bytes.now) < most_block_bytes) }
        ensures err { IfErr result (λ fault. (read : List ℕ) (before : Option (List ℕ))
            → HasRead self.old read bytes.now (T.stands taker.old before (W.contents writer.old))
            → HasStopped fault read
            (StandsAfter fault (T.stands taker.new before (W.contents writer.new)) (T.fails taker.new before (W.contents writer.new)))) }
    {
        let mut taken = 0;
        'parts: loop {
            let rest = &bytes[taken..];
            let found = match self.whole_part(rest) {
                Ok(found) => found,
                Err(fault) => return Err(FileFault::Capture(fault)),
            };
            let Some(size) = found else {
                return Ok(taken);
            };
            self.take_part(&rest[..size], taker, writer)?;
            taken += size;
        }
    }

    /// Takes a part. That of a record comes first, since most parts of most captures are records.
    #[tactic(auto, unfolding(crate::specs::Parts::part_of))]
    fn take_part<T: PacketTaker, W: Write>(
        &mut self,
        bytes: &[u8],
        taker: &mut T,
        writer: &mut W,
    ) -> Result<(), FileFault>
        requires { IsWholePart self.old.format bytes.now (length bytes.now) }
        ensures ok { OnOk result (TakesPart self.old self.new bytes.now
            (T.stands taker.old) (T.stands taker.new) (W.contents writer.old) (W.contents writer.new)) }
        ensures err { IfErr result (λ fault. StopsInPart fault self.old bytes.now
            (T.stands taker.old) (T.stands taker.new) (T.fails taker.new) (W.contents writer.old) (W.contents writer.new)) }
    {
        if let Format::Records {
            order,
            link,
            is_nano,
        } = self.format
        {
            let frame = read_record(order, link, is_nano, bytes);
            return self.take_found(frame, bytes, taker, writer);
        }
        let part = match read_part(self.format, self.interfaces.as_slice(), bytes) {
            Ok(part) => part,
            Err(fault) => return Err(FileFault::Capture(fault)),
        };
        match part {
            Part::Begins(format) => {
                self.begin(format);
                Ok(())
            }
            Part::Interface(interface) => match self.interfaces.push(interface) {
                Ok(()) => Ok(()),
                Err(_) => Err(FileFault::Run(RunFault::NoMemory)),
            },
            Part::Frame(frame) => self.take_found(frame, bytes, taker, writer),
            Part::Continues(format) => {
                self.format = format;
                Ok(())
            }
            Part::Counted(format) => match self.take_frame(0, &[], None, taker, writer) {
                Ok(()) => {
                    self.format = format;
                    Ok(())
                }
                Err(fault) => Err(fault),
            },
        }
    }

    /// Takes the frame that stands in a part.
    #[inline(always)]
    fn take_found<T: PacketTaker, W: Write>(
        &mut self,
        frame: Frame,
        bytes: &[u8],
        taker: &mut T,
        writer: &mut W,
    ) -> Result<(), FileFault>
        requires whole { IsWholePart self.old.format bytes.now (length bytes.now) }
        requires found { part_of self.old.format self.old.interfaces.items bytes.now ≡ Ok (Part.Frame frame) }
        requires fits { frame.start + frame.count ≤ length bytes.now }
        ensures ok { OnOk result (TakesPart self.old self.new bytes.now
            (T.stands taker.old) (T.stands taker.new) (W.contents writer.old) (W.contents writer.new)) }
        ensures err { IfErr result (λ fault. StopsInPart fault self.old bytes.now
            (T.stands taker.old) (T.stands taker.new) (T.fails taker.new) (W.contents writer.old) (W.contents writer.new)) }
    {
        let end = frame.start + frame.count;
        self.take_frame(
            frame.link,
            &bytes[frame.start..end],
            frame.time,
            taker,
            writer,
        )
    }

    /// Takes a frame: it has the next number, and its packet is handed on, if it carries one.
    #[inline(always)]
    fn take_frame<T: PacketTaker, W: Write>(
        &mut self,
        link: u16,
        frame: &[u8],
        time: Option<FrameTime>,
        taker: &mut T,
        writer: &mut W,
    ) -> Result<(), FileFault>
        ensures format { self.new.format ≡ self.old.format }
        ensures interfaces { self.new.interfaces.items ≡ self.old.interfaces.items }
        ensures ok { OnOk result ((frames : List FrameBytes) (before : Option (List ℕ)) → self.old.count ≡ length frames
            → self.old.first ≡ first_among None frames → T.stands taker.old before (W.contents writer.old) (packets_in None 1 frames)
            → (self.new.count ≡ length (frames ++ (link, frame.now, time) ∷ []))
            × (self.new.first ≡ first_among None (frames ++ (link, frame.now, time) ∷ []))
            × T.stands taker.new before (W.contents writer.new) (packets_in None 1 (frames ++ (link, frame.now, time) ∷ []))) }
        ensures err { IfErr result (λ fault. (frames : List FrameBytes) (before : Option (List ℕ)) → self.old.count ≡ length frames
            → self.old.first ≡ first_among None frames → T.stands taker.old before (W.contents writer.old) (packets_in None 1 frames)
            → StopsAtFrame fault self.old.count (T.stands taker.new before (W.contents writer.new)) (T.fails taker.new before (W.contents writer.new))
            (packets_in None 1 frames) (packets_in None 1 (frames ++ (link, frame.now, time) ∷ []))) }
    {
        if self.count >= MOST_FRAMES {
            return Err(FileFault::TooManyFrames);
        }
        let stamp = Stamp {
            number: self.count + 1,
            time,
            first: first_of(self.first, time),
        };
        let Some(packet) = packet_in(link, frame) else {
            self.note(stamp);
            return Ok(());
        };
        match taker.take_packet(stamp, packet, writer) {
            Ok(()) => {
                self.note(stamp);
                Ok(())
            }
            Err(fault) => Err(FileFault::Run(fault)),
        }
    }

    /// A file or a section begins, which has no interface yet.
    fn begin(&mut self, format: Format)
        ensures format { self.new.format ≡ format }
        ensures count { self.new.count ≡ self.old.count }
        ensures first { self.new.first ≡ self.old.first }
        ensures interfaces { self.new.interfaces.items ≡ [] }
    {
        self.format = format;
        self.interfaces.clear();
    }

    /// Notes that the frame of that stamp came.
    fn note(&mut self, stamp: Stamp)
        ensures format { self.new.format ≡ self.old.format }
        ensures interfaces { self.new.interfaces.items ≡ self.old.interfaces.items }
        ensures count { self.new.count ≡ stamp.number }
        ensures first { self.new.first ≡ stamp.first }
    {
        self.count = stamp.number;
        self.first = stamp.first;
    }
}
