//! What prints the things in an input on pages.
use crate::page::Page;
use std::alloc::AllocError;

/// Says what each thing in an input says, one after the other, and then what is to be said at the end of the input, part by
/// part. Lines and packets are such things: pages take each kind in the same way.
///
/// An `impl` names what a contract sees of a thing, what is put out of things, which thing comes behind others, and when
/// memory may be refused for one.
pub trait ThingPrinter {
    ghost use Rattle.std.specs.Prelude.{◌≡◌, ◌<◌, ℕ, List, OnErr, OnOk};
    ghost use Rattle.xns_lines.specs.Printing.{IsBegun, IsEndPrinted, IsPrinted, Output};
    ghost use Rattle.xns_lines.specs.declared.page.Page.{Page};

    /// What is known of a thing besides its bytes: where it stands in the input.
    type Place: Copy;

    // A thing, as contracts see it.
    ghost Thing: { Type 0 };

    // What is put out of things, and of the end behind them.
    ghost output: { Output Self Thing };

    // The thing at that place, of those bytes.
    ghost thing: { Self.Place → List ℕ → Thing };

    // A thing may stand at that place.
    ghost may_stand: { Self.Place → Type 0 };

    // A thing at that place comes behind these things.
    ghost comes_behind: { Self.Place → List Thing → Type 0 };

    // Memory may be refused for this thing, whose text goes to that page.
    ghost wants: { Self → Page → Thing → Type 0 };

    /// Appends what the thing says to the page's latest line, and sets `is_refused` where it is refused.
    ///
    /// The only error is want of memory. What there is of the thing is then dropped, and no more things come.
    fn print_thing(
        &mut self,
        page: &mut Page,
        place: Self::Place,
        bytes: &[u8],
    ) -> Result<(), AllocError>
        requires few { may_stand place }
        ensures front { page.new.text.front ≡ page.old.text.front }
        ensures ok { OnOk result ((things : List Thing) → comes_behind place things → IsBegun (λ xs. output.has_refused xs 0) page.old things
            → output.has_printed self.old things 0
            → IsPrinted (λ xs. output.has_printed self.new xs 0) (λ xs. output.text_of xs 0) (λ xs. output.has_refused xs 0)
            page.new things (thing place bytes.now)) }
        ensures memory { OnErr result (wants self.old page.old (thing place bytes.now)) };

    /// How many parts the end of the input has, behind the things that were printed.
    fn count_parts(&self) -> usize
        ensures { (things : List Thing) → output.has_printed self.now things 0 → result ≡ output.end_count things };

    /// Appends what a part of the end of the input says to the page's latest line, and sets `is_refused` where it is refused.
    /// Parts count from 0, and come in order.
    ///
    /// The only error is want of memory. What there is of the part is then dropped, and no more parts come.
    fn print_part(&mut self, page: &mut Page, part: usize) -> Result<(), AllocError>
        ensures front { page.new.text.front ≡ page.old.text.front }
        ensures ok { OnOk result ((things : List Thing) → part < output.end_count things → IsBegun (λ xs. output.has_refused xs part) page.old things
            → output.has_printed self.old things part
            → IsEndPrinted (output.has_printed self.new things) (output.text_of things) (output.has_refused things) page.new part) };
}
