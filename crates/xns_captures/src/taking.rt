//! Reads a capture to its end, packet by packet.
ghost use Rattle.std.specs.Prelude.{◌≡◌, ◌≤◌, ℕ, List, [], Option, None, Some, IfErr, IfSome, OnOk, drop, vec_len};
ghost use Rattle.std.specs.Io.KnownBytes.{Consumes};
ghost use Rattle.xns_captures.specs.Captures.{capture_fault, packets_of};
ghost use Rattle.xns_captures.specs.Reading.{StandsAfter, StopsBy};

use crate::file_fault::FileFault;
use crate::reading::Reading;
use crate::taker::PacketTaker;
use crate::window::Window;
use std::alloc::Global;
use std::io::{Read, Write};
use xns_lines::RunFault;

/// Reads a capture to its end, and hands the packets in its frames to the taker, in order, each with the number and the
/// time of its frame.
///
/// The file is read in pieces of at most 65,536 bytes. The room for them grows only where a part of the capture does not
/// fit in it, and is never more than that of the longest part that is read and one piece.
///
/// # Errors
/// `Capture` where the capture can't be read on: all packets before that are handed on; `TooManyFrames` where it has over
/// 4,294,967,295 frames; `Read` where a read fails; `NoMemory`
/// where a growth is refused; and the taker's own faults, `NoMemory` and `Write`.
pub fn take_packets<R: Read, T: PacketTaker, W: Write>(
    alloc: Global,
    reader: &mut R,
    taker: &mut T,
    writer: &mut W,
) -> Result<(), FileFault>
    ensures ok { OnOk result (IfSome (R.remaining reader.old) (λ file.
        (before : Option (List ℕ)) → T.stands taker.old before (W.contents writer.old) []
        → (capture_fault file ≡ None) × T.stands taker.new before (W.contents writer.new) (packets_of file))) }
    ensures err { IfErr result (λ fault. IfSome (R.remaining reader.old) (λ file.
        (before : Option (List ℕ)) → T.stands taker.old before (W.contents writer.old) []
        → StopsBy fault file (StandsAfter fault (T.stands taker.new before (W.contents writer.new))
        (T.fails taker.new before (W.contents writer.new))))) }
{
    let mut reading = Reading::new(alloc);
    let mut window = Window::new(alloc);
    'file: for _ in 0..u64::MAX {
        let count = match window.read_piece(reader) {
            Ok(count) => count,
            Err(fault) => return Err(FileFault::Run(fault)),
        };
        if count == 0 {
            if let Some(fault) = reading.end_fault(window.as_slice()) {
                return Err(FileFault::Capture(fault));
            }
            return Ok(());
        }
        let taken = reading.take_parts(window.as_slice(), taker, writer)?;
        window.drop_front(taken);
        match taker.pause(writer) {
            Ok(()) => {}
            Err(fault) => return Err(FileFault::Run(fault)),
        }
    }
    Err(FileFault::Run(RunFault::Read))
}
