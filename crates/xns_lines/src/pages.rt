//! Prints the things in an input on pages.
ghost use Rattle.std.specs.Prelude.{◌≡◌, ◌<◌, ◌+◌, ◌++◌, ◌∷◌, [], ℕ, true, List, Option, IfErr, OnErr, OnOk};
ghost use Rattle.xns_lines.specs.Faults.{IfWants, StandsAfterThing};
ghost use Rattle.xns_lines.specs.Printing.{HasFailed, HasFailedToWrite, IsSilent, Stands, StandsStill, StopsInEnd, WantsAtLine};
ghost use Rattle.xns_lines.specs.Report.{whole};

use crate::fault::RunFault;
use crate::page::Page;
use crate::thing_printer::ThingPrinter;
use std::alloc::{AllocError, Global};
use std::io::Write;

/// Prints things on a page, and writes each page that is full. After a want of memory nothing more is printed.
#[derive(Drop)]
pub struct Pages<P> {
    /// Prints each thing.
    pub printer: P,
    /// What the output says, as far as it isn't written yet.
    pub page: Page,
    /// Whether memory was refused.
    pub is_lost: bool,
}

impl<P: ThingPrinter> Pages<P> {
    /// Pages on which nothing is printed.
    pub fn new(alloc: Global, printer: P) -> Self
        ensures { (held : Option (List ℕ)) → IsSilent P.output printer → Stands P.output 0 result held held [] }
    {
        Pages {
            printer,
            page: Page::new(alloc),
            is_lost: false,
        }
    }

    /// Prints the thing, and writes a page that is full.
    ///
    /// # Errors
    /// `NoMemory` where memory is refused: no text of the thing then stays; `Write` where a write fails.
    pub fn take<W: Write>(
        &mut self,
        place: P::Place,
        bytes: &[u8],
        writer: &mut W,
    ) -> Result<(), RunFault>
        requires few { P.may_stand place }
        ensures ok { OnOk result ((before : Option (List ℕ)) (things : List P.Thing) → P.comes_behind place things
            → Stands P.output 0 self.old before (W.contents writer.old) things
            → Stands P.output 0 self.new before (W.contents writer.new) (things ++ P.thing place bytes.now ∷ [])) }
        ensures err { IfErr result (λ fault. (before : Option (List ℕ)) (things : List P.Thing) → P.comes_behind place things
            → Stands P.output 0 self.old before (W.contents writer.old) things
            → StandsAfterThing fault (Stands P.output 0 self.new before (W.contents writer.new))
            (HasFailed P.output 0 self.new before (W.contents writer.new)) things (P.thing place bytes.now)) }
        ensures memory { IfErr result (λ fault. IfWants fault (WantsAtLine P.wants self.old (P.thing place bytes.now))) }
    {
        let Ok(()) = self.print(place, bytes) else {
            return Err(RunFault::NoMemory);
        };
        self.flush_full(writer)
    }

    /// Prints the thing. Where memory is refused, no text of it stays.
    fn print(&mut self, place: P::Place, bytes: &[u8]) -> Result<(), AllocError>
        requires few { P.may_stand place }
        ensures ok { OnOk result ((before after : Option (List ℕ)) (things : List P.Thing) → P.comes_behind place things
            → Stands P.output 0 self.old before after things
            → Stands P.output 0 self.new before after (things ++ P.thing place bytes.now ∷ [])) }
        ensures err { OnErr result ((before after : Option (List ℕ)) (things : List P.Thing)
            → Stands P.output 0 self.old before after things → Stands P.output 0 self.new before after things) }
        ensures memory { OnErr result (WantsAtLine P.wants self.old (P.thing place bytes.now)) }
    {
        if self.is_lost {
            return Err(AllocError);
        }
        self.page.text.begin_line();
        let was_refused = self.page.is_refused;
        let printed = self.printer.print_thing(&mut self.page, place, bytes);
        if printed.is_err() {
            self.lose_line(was_refused);
        }
        printed
    }

    /// Takes back what there is of the latest line. Nothing more is printed.
    fn lose_line(&mut self, was_refused: bool)
        ensures printer { self.new.printer ≡ self.old.printer }
        ensures front { self.new.page.text.front ≡ self.old.page.text.front }
        ensures line { self.new.page.text.line ≡ [] }
        ensures refused { self.new.page.is_refused ≡ was_refused }
        ensures lost { self.new.is_lost ≡ true }
    {
        self.page.text.drop_line();
        self.page.is_refused = was_refused;
        self.is_lost = true;
    }

    /// Prints all parts of the end of the input, and writes each page that is full.
    ///
    /// # Errors
    /// `NoMemory` where memory is refused: no text of that part then stays; `Write` where a write fails.
    pub fn finish<W: Write>(&mut self, writer: &mut W) -> Result<(), RunFault>
        ensures ok { OnOk result ((before : Option (List ℕ)) (things : List P.Thing)
            → Stands P.output 0 self.old before (W.contents writer.old) things
            → Stands P.output (P.output.end_count things) self.new before (W.contents writer.new) things) }
        ensures err { IfErr result (λ fault. (before : Option (List ℕ)) (things : List P.Thing)
            → Stands P.output 0 self.old before (W.contents writer.old) things
            → StopsInEnd P.output fault (P.output.end_count things) self.new before (W.contents writer.new) things) }
    {
        if self.is_lost {
            return Err(RunFault::NoMemory);
        }
        for part in 0..self.printer.count_parts() {
            self.take_part(part, writer)?;
        }
        Ok(())
    }

    /// Prints a part of the end of the input, and writes a page that is full.
    fn take_part<W: Write>(&mut self, part: usize, writer: &mut W) -> Result<(), RunFault>
        ensures ok { OnOk result ((before : Option (List ℕ)) (things : List P.Thing) → part < P.output.end_count things
            → Stands P.output part self.old before (W.contents writer.old) things
            → Stands P.output (part + 1) self.new before (W.contents writer.new) things) }
        ensures err { IfErr result (λ fault. (before : Option (List ℕ)) (things : List P.Thing) → part < P.output.end_count things
            → Stands P.output part self.old before (W.contents writer.old) things
            → StopsInEnd P.output fault (part + 1) self.new before (W.contents writer.new) things) }
    {
        let Ok(()) = self.print_part(part) else {
            return Err(RunFault::NoMemory);
        };
        self.flush_full(writer)
    }

    /// Prints a part of the end of the input. Where memory is refused, no text of it stays.
    fn print_part(&mut self, part: usize) -> Result<(), AllocError>
        ensures ok { OnOk result ((before after : Option (List ℕ)) (things : List P.Thing) → part < P.output.end_count things
            → Stands P.output part self.old before after things → Stands P.output (part + 1) self.new before after things) }
        ensures err { OnErr result ((before after : Option (List ℕ)) (things : List P.Thing)
            → Stands P.output part self.old before after things → Stands P.output part self.new before after things) }
    {
        if self.is_lost {
            return Err(AllocError);
        }
        self.page.text.begin_line();
        let was_refused = self.page.is_refused;
        let printed = self.printer.print_part(&mut self.page, part);
        if printed.is_err() {
            self.lose_line(was_refused);
        }
        printed
    }

    /// Writes a page that is full.
    fn flush_full<W: Write>(&mut self, writer: &mut W) -> Result<(), RunFault>
        ensures ok { OnOk result (StandsStill P.output self.old self.new (W.contents writer.old) (W.contents writer.new)) }
        ensures err { IfErr result (λ fault. (fault ≡ RunFault.Write)
            × HasFailedToWrite P.output self.old self.new (W.contents writer.old) (W.contents writer.new)) }
    {
        if self.page.is_full() {
            return self.flush(writer);
        }
        Ok(())
    }

    /// Writes the text that isn't written yet.
    ///
    /// The only error is `Write`, where a write fails.
    pub fn flush<W: Write>(&mut self, writer: &mut W) -> Result<(), RunFault>
        ensures ok { OnOk result (StandsStill P.output self.old self.new (W.contents writer.old) (W.contents writer.new)) }
        ensures err { IfErr result (λ fault. (fault ≡ RunFault.Write)
            × HasFailedToWrite P.output self.old self.new (W.contents writer.old) (W.contents writer.new)) }
        ensures text { whole self.new.page.text ≡ [] }
    {
        self.page.flush(writer)
    }
}
