//! What prints the lines of an input.
use crate::page::Page;
use std::alloc::AllocError;

/// Says what each line of an input says, one after the other, as `print_lines` hands them on, and then what is to be said
/// at the end of the input, part by part.
///
/// An `impl` names what holds of it once it has printed some lines and so many parts of the end, what their text is, and
/// whether one of them is refused.
pub trait LinePrinter {
    ghost use Rattle.std.specs.Prelude.{◌≡◌, ◌≤◌, ◌<◌, ◌+◌, ◌++◌, ℕ, Bool, List, [], false, OnOk, length};
    ghost use Rattle.xns_lines.specs.Faults.{Begins};
    ghost use Rattle.xns_lines.specs.Printing.{IsBegun, IsEndPrinted, IsPrinted};

    // The printer has printed these lines, and so many parts of the end of the input behind them.
    ghost has_printed: { Self → List (List ℕ) → ℕ → Type 0 };

    // The text of lines, of which the first has number 1, and of so many parts of the end behind them.
    ghost text_of: { List (List ℕ) → ℕ → List ℕ };

    // Whether one of the lines, or one of so many parts of the end behind them, is refused.
    ghost has_refused: { List (List ℕ) → ℕ → Bool };

    // The printer is handed at most so many lines.
    ghost limit: { ℕ };

    // How many parts the end of the input has behind these lines.
    ghost end_count: { List (List ℕ) → ℕ };

    /// Appends what the line of that number says to the page's latest line, and sets `is_refused` where it is refused.
    ///
    /// The only error is want of memory. What there is of the line is then dropped, and no more lines come.
    fn print_line(&mut self, page: &mut Page, number: usize, line: &[u8]) -> Result<(), AllocError>
        requires few { number ≤ limit }
        ensures front { page.new.text.front ≡ page.old.text.front }
        ensures ok { OnOk result ((lines : List (List ℕ)) → number ≡ length lines + 1 → IsBegun (λ xs. has_refused xs 0) page.old lines
            → has_printed self.old lines 0
            → IsPrinted (λ xs. has_printed self.new xs 0) (λ xs. text_of xs 0) (λ xs. has_refused xs 0) page.new lines line.now) };

    /// How many parts the end of the input has, behind the lines that were printed.
    fn count_ends(&self) -> usize
        ensures { (lines : List (List ℕ)) → has_printed self.now lines 0 → result ≡ end_count lines };

    /// Appends what a part of the end of the input says to the page's latest line, and sets `is_refused` where it is refused.
    /// Parts count from 0, and come in order.
    ///
    /// The only error is want of memory. What there is of the part is then dropped, and no more parts come.
    fn print_end(&mut self, page: &mut Page, part: usize) -> Result<(), AllocError>
        ensures front { page.new.text.front ≡ page.old.text.front }
        ensures ok { OnOk result ((lines : List (List ℕ)) → part < end_count lines → IsBegun (λ xs. has_refused xs part) page.old lines
            → has_printed self.old lines part
            → IsEndPrinted (has_printed self.new lines) (text_of lines) (has_refused lines) page.new part) };

    /// A law, as a function that does nothing: the text of lines begins with that of the first of them, and the text with one
    /// part more of the end with that without it. No lines have no text, and none of them is refused.
    fn text_only_grows()
        ensures begins { (lines more : List (List ℕ)) → Begins (text_of lines 0) (text_of (lines ++ more) 0) }
        ensures ends { (lines : List (List ℕ)) (part : ℕ) → Begins (text_of lines part) (text_of lines (part + 1)) }
        ensures nothing { text_of [] 0 ≡ [] }
        ensures unrefused { has_refused [] 0 ≡ false };
}
