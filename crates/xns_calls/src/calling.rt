//! `calls`: the calls that a capture has, and what came back.
ghost use Rattle.std.specs.Prelude.{◌≡◌};
ghost use Rattle.xns_calls.specs.Printouts.{calls_capture_printout, calls_printout};
ghost use Rattle.xns_lines.specs.Printouts.{Prints};

use crate::described::Described;
use crate::lines_printer::LinesPrinter;
use crate::packet_printer::CapturePrinter;
use crate::time_style::{AbsoluteTimes, NoTimes, RelativeTimes, TimeStyle};
use crate::times::Times;
use courier_programs::Program;
use std::alloc::Global;
use std::io::{Read, Write};
use std::marker::Brand;
use xns_captures::{FileFault, FileResult, print_packets};
use xns_lines::laws::nothing_is_printed_at_first;
use xns_lines::{RunFault, RunResult, print_lines};

/// Line numbers have 64 bits; there is no other limit on the number of lines.
const MOST_LINES: usize = 18_446_744_073_709_551_615;

/// Reads lines of hex, each an internet packet, and prints the Courier calls that they carry, and what came back. The
/// result is whether something was refused: where no programs are given, whether the output has the word `refused`.
///
/// Where programs are given, a call, a return or an abort that they declare is told by name and value: the program, the
/// procedure or the error, and the arguments or the results. Without programs, and of what they do not declare, it is told by
/// numbers; so is what they declare where its words are not exactly one value, and then the word that goes on none, counted
/// from 0, and the reason stand at the end of the line.
///
/// Lines and limits are those of `xns_dump::dump`, but that the number of lines is not limited. A flow is the data packets
/// with equal hosts, sockets and identifiers of source and target, of which the target's identifier is not 0. Its items
/// are read in the order of their numbers (XSIS 028112, Sequenced Packet Protocol): those that come early, with numbers up
/// to 63 above the next, are kept until those before them come, and repeats are passed over. What a packet acknowledges ahead of the
/// items takes effect 64 packets of the connection later, so that copies may overtake each other; until then an item waits for
/// those that its packet acknowledges, so that an answer is read behind its call. What the items of datastream
/// 0 say is read as the messages of a session (XSIS 038112, Courier, Message stream), however it is cut. Once a connection was
/// closed by both ends, an item 0 begins another one of the same ends.
///
/// A line is printed of each flow that begins, each message that is whole, each stretch of items that had not come by
/// that line, each text that is no message or no version range, and each line of the input that is no packet. Items that
/// had not come are repeats if they come later. Of an answer it says at which line its call was whole. `docs/FORMATS.md`
/// has the lines.
///
/// # Errors
/// `Read` where a read fails, for whatever reason; `Write` where a write fails or takes no byte; `LineTooLong` where a
/// line has over 4,096 bytes, its byte 13 among them and its byte 10 not; `TooManyLines` where there are 2^64 lines;
/// `NoMemory` where a growth is refused. Of the limits' faults the one that comes first in the input is
/// answered. The text of all lines before the fault is written first, but for a write that fails.
///
/// `calls` holds what `dump` holds, the words of the longest message, its value and its text where it is named, the buffers of at most 64 items
/// that were kept and then read, which others use again, and of each flow with ends of its own a record of some 400
/// bytes, at most 64 items that wait, at most 64 acknowledgements that came before their items, and at most 131,072 bytes of a message that is not whole, with four more while a version range
/// stands before it.
pub fn calls<R: Read, W: Write>(
    alloc: Global,
    programs: Option<&[Program]>,
    reader: &mut R,
    writer: &mut W,
) -> RunResult
    // Without a fault the text of the whole input is written, which is within the limits. After a fault the text of the lines
    // before it is written, and what was read shows a limit that was passed.
    ensures { Prints (calls_printout programs.entry) result
        (R.remaining reader.old) (R.remaining reader.new) (W.contents writer.old) (W.contents writer.new) }
{
    print_described::<Brand, R, W>(alloc, programs, reader, writer)
}

/// Reads lines of hex and prints their calls, named by the programs of a type.
fn print_described<D: Described, R: Read, W: Write>(
    alloc: Global,
    programs: Option<&[Program]>,
    reader: &mut R,
    writer: &mut W,
) -> RunResult
    requires { programs ≡ D.programs }
    ensures { Prints (calls_printout D.programs) result
        (R.remaining reader.old) (R.remaining reader.new) (W.contents writer.old) (W.contents writer.new) }
{
    nothing_is_printed_at_first();
    let Ok(printer) = LinesPrinter::<D>::new(alloc, programs) else {
        return Err(RunFault::NoMemory);
    };
    print_lines(alloc, MOST_LINES, reader, writer, printer)
}

/// Reads a capture and prints the Courier calls that the internet packets in its frames carry, and what came back, as `calls`
/// does of lines, with the number of the frame in place of the line's. Where times are wanted, the time of the frame stands
/// before each line, and behind each answer how long its call took. The result is whether something was refused.
pub fn calls_capture<R: Read, W: Write>(
    alloc: Global,
    programs: Option<&[Program]>,
    times: Times,
    reader: &mut R,
    writer: &mut W,
) -> FileResult
    // Without a fault the text of the whole file is written, which holds no fault. After a fault the text of the packets before
    // it is written; one of the capture comes behind all its packets.
    ensures { Prints (calls_capture_printout programs.entry times) result
        (R.remaining reader.old) (R.remaining reader.new) (W.contents writer.old) (W.contents writer.new) }
{
    match times {
        Times::Hidden => {
            print_styled::<Brand, NoTimes, R, W>(alloc, programs, NoTimes, reader, writer)
        },
        Times::Absolute => {
            print_styled::<Brand, AbsoluteTimes, R, W>(
                alloc,
                programs,
                AbsoluteTimes,
                reader,
                writer,
            )
        },
        Times::Relative => {
            print_styled::<Brand, RelativeTimes, R, W>(
                alloc,
                programs,
                RelativeTimes,
                reader,
                writer,
            )
        },
    }
}

/// Reads a capture and prints its calls, named by the programs of a type, with times of that style.
fn print_styled<D: Described, S: TimeStyle, R: Read, W: Write>(
    alloc: Global,
    programs: Option<&[Program]>,
    style: S,
    reader: &mut R,
    writer: &mut W,
) -> FileResult
    requires { programs ≡ D.programs }
    ensures { Prints (calls_capture_printout D.programs S.style) result
        (R.remaining reader.old) (R.remaining reader.new) (W.contents writer.old) (W.contents writer.new) }
{
    let Ok(printer) = CapturePrinter::<S, D>::new(alloc, programs, style) else {
        return Err(FileFault::Run(RunFault::NoMemory));
    };
    print_packets(alloc, reader, writer, printer)
}
