//! What lines of an input are handed to.
use crate::fault::RunFault;
use std::io::Write;

/// Takes the lines of an input, one after the other, as `take_lines` hands them on. It may write meanwhile.
///
/// An `impl` names two relations: `stands`, what holds of it and of what is written once it has taken some lines, and
/// `fails`, what is left of that after a failed write.
pub trait LineTaker {
    ghost use Rattle.std.specs.Prelude.{◌≡◌, ◌≤◌, ◌+◌, ◌++◌, ℕ, List, [], ◌∷◌, Option, IfErr, OnOk, length};
    ghost use Rattle.xns_lines.specs.Lines.{most_line_bytes};
    ghost use Rattle.xns_lines.specs.Lines.Cutter.{StandsAfterLine};

    // The taker is handed at most so many lines.
    ghost limit: { ℕ };

    // The taker has taken these lines, and the writer, which held the first bytes, holds the second.
    ghost stands: { Self → Option (List ℕ) → Option (List ℕ) → List (List ℕ) → Type 0 };

    // The taker has taken these lines, but a write failed.
    ghost fails: { Self → Option (List ℕ) → Option (List ℕ) → List (List ℕ) → Type 0 };

    /// Takes the line of that number, which counts from 1. The line has neither its byte 10 nor more than 4,096 bytes.
    ///
    /// # Errors
    /// `NoMemory` where memory is refused: it then stands for the lines before this one; `Write` where a write fails.
    fn take_line<W: Write>(
        &mut self,
        number: usize,
        line: &[u8],
        writer: &mut W,
    ) -> Result<(), RunFault>
        requires few { number ≤ limit }
        requires short { length line.now ≤ most_line_bytes }
        ensures ok { OnOk result ((before : Option (List ℕ)) (lines : List (List ℕ)) → number ≡ length lines + 1
            → stands self.old before (W.contents writer.old) lines
            → stands self.new before (W.contents writer.new) (lines ++ line.now ∷ [])) }
        ensures err { IfErr result (λ fault. (before : Option (List ℕ)) (lines : List (List ℕ)) → number ≡ length lines + 1
            → stands self.old before (W.contents writer.old) lines
            → StandsAfterLine fault (stands self.new before (W.contents writer.new))
            (fails self.new before (W.contents writer.new)) lines line.now) };

    /// Does what is to be done before more of the input is awaited.
    ///
    /// The only error is `Write`, where a write fails.
    fn pause<W: Write>(&mut self, writer: &mut W) -> Result<(), RunFault>
        ensures ok { OnOk result ((before : Option (List ℕ)) (lines : List (List ℕ))
            → stands self.old before (W.contents writer.old) lines → stands self.new before (W.contents writer.new) lines) }
        ensures err { IfErr result (λ fault. (fault ≡ RunFault.Write)
            × ((before : Option (List ℕ)) (lines : List (List ℕ)) → stands self.old before (W.contents writer.old) lines
            → fails self.new before (W.contents writer.new) lines)) };
}
