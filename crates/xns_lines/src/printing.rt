//! Prints what the lines of an input say.
ghost use Rattle.std.specs.Prelude.{◌≤◌, [], IfErr, IfSome, OnOk};
ghost use Rattle.xns_lines.specs.Printing.{TakesAll, TakesSome};
ghost use Rattle.xns_lines.specs.Printouts.{Prints, lines_printout};

use crate::by_line::ByLine;
use crate::fault::{RunFault, RunResult};
use crate::line_printer::LinePrinter;
use crate::pages::Pages;
use crate::taking::take_lines;
use crate::thing_printer::ThingPrinter;
use std::alloc::Global;
use std::io::{Read, Write};

/// Reads an input of at most so many lines to its end, and prints what its lines say, in order, and what is said at its
/// end. The result is whether a line, or something at the end, was refused.
///
/// Lines, their limits and faults are those of `take_lines`. Text is written before more of the input is awaited, and
/// once there are 65,536 bytes of it: so less than that is held, and the text of one line or of one part of the end.
///
/// # Errors
/// Those of `take_lines`; `Write` where a write fails or takes no byte; `NoMemory` where a growth is refused. The text of
/// all lines before the fault is written first, but for a write that fails. Nothing is said at the end after a fault of
/// reading, of size, or of memory at a line; where memory is refused at the end, all parts before that are written.
pub fn print_lines<R: Read, W: Write, P: LinePrinter + Drop>(
    alloc: Global,
    most: usize,
    reader: &mut R,
    writer: &mut W,
    printer: P,
) -> RunResult
    requires begun { P.has_printed printer [] 0 }
    requires few { most ≤ P.limit }

    // Without a fault the text of the whole input is written, which is within the limits. After a fault the text of the lines
    // before it is written, and what was read shows a limit that was passed.
    ensures { Prints (lines_printout most P.text_of P.has_refused P.end_count) result
        (R.remaining reader.old) (R.remaining reader.new) (W.contents writer.old) (W.contents writer.new) }
{
    P::text_only_grows();
    let mut pages = Pages::new(alloc, ByLine { printer });
    let taken = take_all(alloc, most, reader, &mut pages, writer);
    pages.page.flush(writer)?;
    match taken {
        Ok(()) => Ok(pages.page.is_refused),
        Err(fault) => Err(fault),
    }
}

/// Prints the lines of the input, and its end.
fn take_all<R: Read, W: Write, P: LinePrinter>(
    alloc: Global,
    most: usize,
    reader: &mut R,
    pages: &mut Pages<ByLine<P>>,
    writer: &mut W,
) -> Result<(), RunFault>
    requires few { most ≤ P.limit }
    ensures ok { OnOk result (IfSome (R.remaining reader.old)
        (TakesAll most ⟦<ByLine<P> as ThingPrinter>⟧.output pages.old pages.new
        (W.contents writer.old) (W.contents writer.new) (R.remaining reader.new))) }
    ensures err { IfErr result (λ fault. IfSome (R.remaining reader.old)
        (TakesSome most ⟦<ByLine<P> as ThingPrinter>⟧.output fault pages.old pages.new
        (W.contents writer.old) (W.contents writer.new) (R.remaining reader.new))) }
{
    take_lines(alloc, most, reader, pages, writer)?;
    pages.finish(writer)
}
