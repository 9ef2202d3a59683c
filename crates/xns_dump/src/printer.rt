//! What `dump` makes of the lines of its input.
ghost use Rattle.std.specs.Prelude.{[], IfOk};
ghost use Rattle.std.specs.List.{list_any};
ghost use Rattle.xns_dump.specs.Dump.{end_count as no_ends, items_in, text_with_end};
ghost use Rattle.xns_dump.specs.Dump.Line.{is_refused};
ghost use Rattle.xns_dump.specs.Flows.Numbers.{NumbersStandFor};
ghost use Rattle.xns_lines.specs.Lines.{most_lines};

use crate::flows::numbers::FlowNumbers;
use crate::reporter::LineAppender;
use std::alloc::{AllocError, Global};
use xns_lines::{LinePrinter, Page};

/// Prints what each line says.
#[derive(Drop)]
pub(crate) struct DumpPrinter {
    /// Appends what a line says.
    pub(crate) appender: LineAppender,
    /// The number of the last item of each flow so far.
    pub(crate) numbers: FlowNumbers,
}

impl DumpPrinter {
    /// A printer that has printed nothing. The only error is want of memory.
    pub(crate) fn new(alloc: Global) -> Result<Self, AllocError>
        ensures { IfOk result (λ printer. NumbersStandFor printer.numbers.last []) }
    {
        let appender = LineAppender::new(alloc)?;
        Ok(DumpPrinter {
            appender,
            numbers: FlowNumbers::new(alloc),
        })
    }
}

impl LinePrinter for DumpPrinter {
    ghost limit = { most_lines };

    ghost end_count = { no_ends };

    ghost has_printed = { λ printer lines part. NumbersStandFor printer.numbers.last (items_in lines) };

    ghost text_of = { text_with_end };

    ghost has_refused = { λ lines part. list_any is_refused lines };

    fn print_line(
        &mut self,
        page: &mut Page,
        number: usize,
        line: &[u8],
    ) -> Result<(), AllocError> {
        let outcome = self
            .appender
            .report_line(&mut page.text, number, line, &self.numbers)?;
        self.numbers.note_item(outcome.item)?;
        page.is_refused |= outcome.is_refused;
        Ok(())
    }

    fn count_ends(&self) -> usize {
        0
    }

    fn print_end(&mut self, _page: &mut Page, _part: usize) -> Result<(), AllocError> {
        Ok(())
    }

    fn text_only_grows() {}
}
