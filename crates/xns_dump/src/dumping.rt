//! `dump`: what each line of hex says, line by line.
ghost use Rattle.xns_dump.specs.Dump.{dump_printout};
ghost use Rattle.xns_dump.specs.Dump.Capture.{dump_capture_printout};
ghost use Rattle.xns_lines.specs.Printouts.{Prints};

use crate::printer::DumpPrinter;
use std::alloc::Global;
use std::io::{Read, Write};
use xns_captures::{FileFault, FileResult, print_packets};
use xns_lines::laws::nothing_is_printed_at_first;
use xns_lines::{MOST_LINES, RunFault, RunResult, print_lines};

/// Reads lines of hex and prints what each says. The result says whether a line was refused.
///
/// Lines and their limits are those of [`xns_lines::take_lines`]. One byte 13 at a line's end, and each space and tab, are dropped; the
/// rest are hex digits of either case. They spell an internet packet (XSIS 028112, Internet Datagram Protocol, Packet Format), or
/// they are refused in one line that says why. Bytes behind the packet are left unread.
///
/// A packet prints two to four lines: its header's fields, then what its packet type makes of its body. That is one line
/// for Echo, Error, Packet Exchange, a body that is refused, and the data of any other type; for a sequenced packet its
/// header, the number of its item where it brings one to a known destination, and its words, message or data if it has
/// any.
///
/// # Errors
/// The errors are those of [`xns_lines::print_lines`], with at most [`MOST_LINES`] lines. The text of all lines before the fault is
/// written first, unless a write fails.
///
/// In memory are what `print_lines` holds, room for the digits of the longest line, for their values and for the bytes that they
/// spell, the words of a message, and the number of the last item of each flow. A line begins at most one flow.
pub fn dump<R: Read, W: Write>(alloc: Global, reader: &mut R, writer: &mut W) -> RunResult
    // Without a fault the text of the whole input is written, which is within the limits. After a fault the text of the lines
    // before it is written, and the bytes that were read show a limit that was passed.
    ensures { Prints dump_printout result (R.remaining reader.old) (R.remaining reader.new) (W.contents writer.old) (W.contents writer.new) }
{
    nothing_is_printed_at_first();
    let Ok(printer) = DumpPrinter::new(alloc) else {
        return Err(RunFault::NoMemory);
    };
    print_lines(alloc, MOST_LINES, reader, writer, printer)
}

/// Reads a capture and prints what each internet packet in its frames says, as `dump` does for lines, with the number of
/// the frame in place of the line's. The result says whether a packet was refused.
pub fn dump_capture<R: Read, W: Write>(alloc: Global, reader: &mut R, writer: &mut W) -> FileResult
    // Without a fault the text of the whole file is written, which holds no fault. After a fault the text of the packets before
    // it is written; a fault of the capture comes behind all its packets.
    ensures { Prints dump_capture_printout result
        (R.remaining reader.old) (R.remaining reader.new) (W.contents writer.old) (W.contents writer.new) }
{
    let Ok(printer) = DumpPrinter::new(alloc) else {
        return Err(FileFault::Run(RunFault::NoMemory));
    };
    print_packets(alloc, reader, writer, printer)
}
