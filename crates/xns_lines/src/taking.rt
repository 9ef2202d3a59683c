//! Reads an input to its end, line by line.
ghost use Rattle.std.specs.Prelude.{◌≡◌, ◌≤◌, ℕ, List, [], Option, Some, IfErr, IfSome, OnOk};
ghost use Rattle.std.specs.Io.KnownBytes.{Consumes};
ghost use Rattle.xns_lines.specs.Lines.Cutter.{StandsAfter, StopsShort};
ghost use Rattle.xns_lines.specs.Lines.{IsWithinLimits, lines_of};

use crate::cutter::Cutter;
use crate::fault::RunFault;
use crate::taker::LineTaker;
use std::alloc::Global;
use std::io::{Read, Write};

/// The input is read in pieces of so many bytes.
const PIECE: usize = 65536;

/// Reads an input of at most so many lines to its end, and hands its lines to the taker, in order. This function finds
/// all faults of reads and of limits.
///
/// Byte 10 ends a line, and so does the end of the input after a byte; lines count from 1, and are handed on without
/// their byte 10 and with their byte 13. The taker may write to the writer, at a line and before more of the input is
/// awaited; nothing else is written. The input is read in pieces of 65,536 bytes, of which one is held, and one line.
///
/// # Errors
/// `Read` where a read fails, for whatever reason; `LineTooLong` where a line has over 4,096 bytes, its byte 13 among
/// them and its byte 10 not; `TooManyLines` where there are more lines than `most`; `NoMemory` where a growth is refused; and
/// the taker's own faults, `NoMemory` and `Write`. Of the limits' faults the one that comes first in the input is
/// returned. The lines before the fault are handed on.
pub fn take_lines<R: Read, T: LineTaker, W: Write>(
    alloc: Global,
    most: usize,
    reader: &mut R,
    taker: &mut T,
    writer: &mut W,
) -> Result<(), RunFault>
    requires few { most ≤ T.limit }
    ensures ok { OnOk result (IfSome (R.remaining reader.old) (λ input. Consumes (Some input) (R.remaining reader.new) input
        × IsWithinLimits most input
        × ((before : Option (List ℕ)) → T.stands taker.old before (W.contents writer.old) []
        → T.stands taker.new before (W.contents writer.new) (lines_of input)))) }
    ensures err { IfErr result (λ fault. IfSome (R.remaining reader.old) (λ input. (read : List ℕ)
        × Consumes (Some input) (R.remaining reader.new) read
        × ((before : Option (List ℕ)) → T.stands taker.old before (W.contents writer.old) []
        → StopsShort most fault read (StandsAfter fault (T.stands taker.new before (W.contents writer.new))
        (T.fails taker.new before (W.contents writer.new)))))) }
{
    let mut cutter = Cutter::new(alloc, most)?;
    let mut piece = [0u8; PIECE];
    loop {
        let count = match reader.read(&mut piece) {
            Ok(count) => count,
            Err(_) => return Err(RunFault::Read),
        };
        if count == 0 {
            break;
        }
        cutter.take_piece(&piece[..count], taker, writer)?;
        taker.pause(writer)?;
    }
    cutter.finish(taker, writer)
}
