//! Cuts an input into lines, and finds the faults of limits.
ghost use Rattle.std.specs.Prelude.{◌≡◌, ◌<◌, ◌≤◌, ◌+◌, ◌++◌, ℕ, List, [], ◌∷◌, Option, IfErr, IfOk, OnOk, length};
ghost use Rattle.xns_lines.specs.Lines.{IsWithinLimits, closed_lines, lines_of, most_line_bytes};

use crate::fault::RunFault;
use crate::limits::MOST_LINE_BYTES;
use crate::taker::LineTaker;
use memchr::memchr;
use std::alloc::Global;
use std::io::Write;

/// What is kept between two pieces of the input.
#[derive(Drop)]
pub(crate) struct Cutter {
    /// The bytes of the line that isn't over.
    line: Vec<u8>,
    /// How many lines are over.
    count: usize,
    /// How many lines are taken at most.
    most: usize,
    ghost short: { length line.items ≤ most_line_bytes },
}

impl Cutter {
    ghost use Rattle.xns_lines.specs.Lines.Cutter.{HasCut, HasNoNewline, HasTaken, IsCutShort, StandsAfter, IsOwn, StopsShort, room_of};

    /// A cutter that has cut nothing.
    pub(crate) fn new(alloc: Global, most: usize) -> Result<Self, RunFault>
        ensures limit { IfOk result (λ cutter. cutter.most ≡ most) }
        ensures ok { IfOk result (λ cutter. HasCut most cutter []) }
        ensures err { IfErr result (λ fault. fault ≡ RunFault.NoMemory) }
    {
        match Vec::with_capacity(alloc, MOST_LINE_BYTES) {
            Ok(line) => Ok(Cutter {
                line,
                count: 0,
                most,
            }),
            Err(_) => Err(RunFault::NoMemory),
        }
    }

    /// Cuts the next piece of the input, and hands on the lines that are over by then.
    pub(crate) fn take_piece<T: LineTaker, W: Write>(
        &mut self,
        piece: &[u8],
        taker: &mut T,
        writer: &mut W,
    ) -> Result<(), RunFault>
        requires few { self.old.most ≤ T.limit }
        ensures limit { self.new.most ≡ self.old.most }
        ensures cut { OnOk result ((most : ℕ) (taken : List ℕ) → HasCut most self.old taken → HasCut most self.new (taken ++ piece.now)) }
        ensures ok { OnOk result ((most : ℕ) (taken : List ℕ) (before : Option (List ℕ))
            → HasTaken most self.old (T.stands taker.old before (W.contents writer.old)) taken
            → HasTaken most self.new (T.stands taker.new before (W.contents writer.new)) (taken ++ piece.now)) }
        ensures err { IfErr result (λ fault. (most : ℕ) (taken : List ℕ) (before : Option (List ℕ))
            → HasTaken most self.old (T.stands taker.old before (W.contents writer.old)) taken
            → IsCutShort most fault (taken ++ piece.now) (StandsAfter fault (T.stands taker.new before (W.contents writer.new))
            (T.fails taker.new before (W.contents writer.new)))) }
        ensures room { OnOk result (room_of self.new + length piece.now ≤ room_of self.old) }
    {
        let mut rest = piece;
        while let Some(end) = memchr(b'\n', rest) {
            self.take_end(&rest[..end], taker, writer)?;
            rest = &rest[end + 1..];
        }
        self.take_run(rest)
    }

    /// Ends a line with `run`, which holds no byte 10, and with a byte 10. A line that lies whole in the piece is not
    /// copied.
    fn take_end<T: LineTaker, W: Write>(
        &mut self,
        run: &[u8],
        taker: &mut T,
        writer: &mut W,
    ) -> Result<(), RunFault>
        requires plain { HasNoNewline run.now }
        requires few { self.old.most ≤ T.limit }
        ensures limit { self.new.most ≡ self.old.most }
        ensures cut { OnOk result ((most : ℕ) (taken : List ℕ) → HasCut most self.old taken
            → HasCut most self.new ((taken ++ run.now) ++ 10 ∷ [])) }
        ensures ok { OnOk result ((most : ℕ) (taken : List ℕ) (before : Option (List ℕ))
            → HasTaken most self.old (T.stands taker.old before (W.contents writer.old)) taken
            → HasTaken most self.new (T.stands taker.new before (W.contents writer.new)) ((taken ++ run.now) ++ 10 ∷ [])) }
        ensures err { IfErr result (λ fault. (most : ℕ) (taken : List ℕ) (before : Option (List ℕ))
            → HasTaken most self.old (T.stands taker.old before (W.contents writer.old)) taken
            → IsCutShort most fault ((taken ++ run.now) ++ 10 ∷ [])
            (StandsAfter fault (T.stands taker.new before (W.contents writer.new))
            (T.fails taker.new before (W.contents writer.new)))) }
        ensures room { OnOk result (room_of self.new + length run.now < room_of self.old) }
    {
        if !self.line.is_empty() {
            self.take_run(run)?;
            return self.take_newline(taker, writer);
        }
        let number = self.next_number()?;
        if run.len() > MOST_LINE_BYTES {
            return Err(RunFault::LineTooLong);
        }
        taker.take_line(number, run, writer)?;
        self.count = number;
        Ok(())
    }

    /// Takes bytes among which is no byte 10.
    fn take_run(&mut self, run: &[u8]) -> Result<(), RunFault>
        requires { HasNoNewline run.now }
        ensures limit { self.new.most ≡ self.old.most }
        ensures ok { OnOk result ((most : ℕ) (taken : List ℕ) → HasCut most self.old taken → HasCut most self.new (taken ++ run.now)
            × (closed_lines (taken ++ run.now) ≡ closed_lines taken)) }
        ensures err { IfErr result (λ fault. (most : ℕ) (taken : List ℕ) → HasCut most self.old taken
            → IsCutShort most fault (taken ++ run.now) (λ lines. IsOwn fault × (lines ≡ closed_lines taken))) }
        ensures room { OnOk result (room_of self.new + length run.now ≤ room_of self.old) }
    {
        if run.is_empty() {
            return Ok(());
        }
        self.next_number()?;
        if self.line.len() + run.len() > MOST_LINE_BYTES {
            return Err(RunFault::LineTooLong);
        }
        match self.line.extend_from_slice(run) {
            Ok(()) => Ok(()),
            Err(_) => Err(RunFault::NoMemory),
        }
    }

    /// Takes a byte 10.
    fn take_newline<T: LineTaker, W: Write>(
        &mut self,
        taker: &mut T,
        writer: &mut W,
    ) -> Result<(), RunFault>
        requires few { self.old.most ≤ T.limit }
        ensures limit { self.new.most ≡ self.old.most }
        ensures cut { OnOk result ((most : ℕ) (taken : List ℕ) → HasCut most self.old taken → HasCut most self.new (taken ++ 10 ∷ [])) }
        ensures ok { OnOk result ((most : ℕ) (taken : List ℕ) (before : Option (List ℕ))
            → HasTaken most self.old (T.stands taker.old before (W.contents writer.old)) taken
            → HasTaken most self.new (T.stands taker.new before (W.contents writer.new)) (taken ++ 10 ∷ [])) }
        ensures err { IfErr result (λ fault. (most : ℕ) (taken : List ℕ) (before : Option (List ℕ))
            → HasTaken most self.old (T.stands taker.old before (W.contents writer.old)) taken
            → IsCutShort most fault (taken ++ 10 ∷ []) (StandsAfter fault (T.stands taker.new before (W.contents writer.new))
            (T.fails taker.new before (W.contents writer.new)))) }
        ensures room { OnOk result (room_of self.new < room_of self.old) }
    {
        let number = self.next_number()?;
        taker.take_line(number, self.line.as_slice(), writer)?;
        self.count = number;
        self.line.clear();
        Ok(())
    }

    /// The number of the line that is not over, or of the next one where there is none.
    fn next_number(&self) -> Result<usize, RunFault>
        ensures ok { IfOk result (λ number. (number ≡ self.now.count + 1) × (self.now.count < self.now.most)) }
        ensures err { IfErr result (λ fault. (fault ≡ RunFault.TooManyLines) × (self.now.most ≤ self.now.count)) }
    {
        if self.count >= self.most {
            return Err(RunFault::TooManyLines);
        }
        Ok(self.count + 1)
    }

    /// Hands on the line that isn't over at the end of the input.
    pub(crate) fn finish<T: LineTaker, W: Write>(
        self,
        taker: &mut T,
        writer: &mut W,
    ) -> Result<(), RunFault>
        requires room { 0 < length self.line.items → self.count < self.most }
        requires few { self.most ≤ T.limit }
        ensures limits { OnOk result ((most : ℕ) (taken : List ℕ) → HasCut most self taken → IsWithinLimits most taken) }
        ensures ok { OnOk result ((most : ℕ) (taken : List ℕ) (before : Option (List ℕ))
            → HasTaken most self (T.stands taker.old before (W.contents writer.old)) taken
            → T.stands taker.new before (W.contents writer.new) (lines_of taken)) }
        ensures err { IfErr result (λ fault. (most : ℕ) (taken : List ℕ) (before : Option (List ℕ))
            → HasTaken most self (T.stands taker.old before (W.contents writer.old)) taken
            → StopsShort most fault taken (StandsAfter fault (T.stands taker.new before (W.contents writer.new))
            (T.fails taker.new before (W.contents writer.new)))) }
    {
        if self.line.is_empty() {
            return Ok(());
        }
        taker.take_line(self.count + 1, self.line.as_slice(), writer)
    }
}
