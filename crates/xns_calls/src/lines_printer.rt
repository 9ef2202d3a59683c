//! What `calls` makes of the lines of its input.
ghost use Rattle.std.specs.Prelude.{◌≡◌, ◌+◌, ◌++◌, ℕ, List, [], false, IfOk};
ghost use Rattle.xns_lines.specs.Faults.{Begins};
ghost use Rattle.xns_calls.specs.Calls.{HasPrinted, end_count as count_of_ends, has_refused as is_refused_with_end, most_numbered_lines};
ghost use Rattle.xns_calls.specs.Calls.{text_with_end};

use crate::described::Described;
use crate::origin::Origin;
use crate::packet_lines::take_line_in;
use crate::printer::CallsPrinter;
use courier_programs::Program;
use std::alloc::{AllocError, Global};
use std::marker::PhantomData;
use xns_lines::{LinePrinter, Page};

/// Says what was called in lines of hex and what came back, with calls named by the programs of its type.
#[derive(Drop)]
pub(crate) struct LinesPrinter<'a, D> {
    /// What was said.
    printer: CallsPrinter<'a>,
    /// Which programs name calls.
    described: PhantomData<D>,
}

impl<'a, D: Described> LinesPrinter<'a, D> {
    /// A printer that has printed nothing. The only error is want of memory.
    pub(crate) fn new(
        alloc: Global,
        programs: Option<&'a [Program]>,
    ) -> Result<LinesPrinter<'a, D>, AllocError>
        requires { programs ≡ D.programs }
        ensures { IfOk result (λ printer. HasPrinted D.programs printer.printer [] 0) }
    {
        let printer = CallsPrinter::new(alloc, programs)?;
        Ok(LinesPrinter {
            printer,
            described: PhantomData,
        })
    }
}

impl<D: Described> LinePrinter for LinesPrinter<'_, D> {
    ghost limit = { most_numbered_lines };

    ghost end_count = { count_of_ends D.programs };

    ghost has_printed = { λ printer lines part. HasPrinted D.programs printer.printer lines part };

    ghost text_of = { text_with_end D.programs };

    ghost has_refused = { is_refused_with_end D.programs };

    fn print_line(
        &mut self,
        page: &mut Page,
        number: usize,
        line: &[u8],
    ) -> Result<(), AllocError> {
        let printer = &mut self.printer;
        let programs = printer.programs;
        take_line_in(
            &mut printer.reader,
            &mut printer.capture,
            page,
            programs,
            number,
            line,
        )?;
        printer.last = Origin::of_line(programs, number);
        Ok(())
    }

    fn count_ends(&self) -> usize {
        self.printer.capture.connection_count()
    }

    fn print_end(&mut self, page: &mut Page, part: usize) -> Result<(), AllocError> {
        let last = self.printer.last;
        self.printer.capture.take_end(page, &last, part)
    }

    fn text_only_grows()
        ensures begins { (lines more : List (List ℕ)) → Begins (text_with_end D.programs lines 0) (text_with_end D.programs (lines ++ more) 0) }
        ensures ends { (lines : List (List ℕ)) (part : ℕ) → Begins (text_with_end D.programs lines part) (text_with_end D.programs lines (part + 1)) }
        ensures nothing { text_with_end D.programs [] 0 ≡ [] }
        ensures unrefused { is_refused_with_end D.programs [] 0 ≡ false }
    {}
}
