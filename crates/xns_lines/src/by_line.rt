//! Prints lines on pages.
ghost use Rattle.std.specs.Prelude.{◌≡◌, ◌≤◌, ◌+◌, ℕ, List, length};
ghost use Rattle.xns_lines.specs.Printing.{HasFailed, Stands};

use crate::fault::RunFault;
use crate::line_printer::LinePrinter;
use crate::page::Page;
use crate::pages::Pages;
use crate::taker::LineTaker;
use crate::thing_printer::ThingPrinter;
use std::alloc::AllocError;
use std::io::Write;

/// Prints the lines of an input, each of which stands at its number.
#[derive(Drop)]
pub(crate) struct ByLine<P> {
    /// Prints each line.
    pub(crate) printer: P,
}

impl<P: LinePrinter> ThingPrinter for ByLine<P> {
    type Place = usize;

    ghost Thing = { List ℕ };

    ghost output = { record { has_printed = λ by. P.has_printed by.printer; text_of = P.text_of; has_refused = P.has_refused; end_count = P.end_count } };

    ghost thing = { λ number line. line };

    ghost may_stand = { λ number. number ≤ P.limit };

    ghost comes_behind = { λ number lines. number ≡ length lines + 1 };

    // A printer of lines may be refused memory for any line.
    ghost wants = { λ by page line. Unit {0} };

    fn print_thing(
        &mut self,
        page: &mut Page,
        number: usize,
        line: &[u8],
    ) -> Result<(), AllocError> {
        self.printer.print_line(page, number, line)
    }

    fn count_parts(&self) -> usize {
        self.printer.count_ends()
    }

    fn print_part(&mut self, page: &mut Page, part: usize) -> Result<(), AllocError> {
        self.printer.print_end(page, part)
    }
}

impl<P: LinePrinter> LineTaker for Pages<ByLine<P>> {
    ghost limit = { P.limit };

    ghost stands = { Stands ⟦<ByLine<P> as ThingPrinter>⟧.output 0 };

    ghost fails = { HasFailed ⟦<ByLine<P> as ThingPrinter>⟧.output 0 };

    fn take_line<W: Write>(
        &mut self,
        number: usize,
        line: &[u8],
        writer: &mut W,
    ) -> Result<(), RunFault> {
        self.take(number, line, writer)
    }

    fn pause<W: Write>(&mut self, writer: &mut W) -> Result<(), RunFault> {
        self.flush(writer)
    }
}
