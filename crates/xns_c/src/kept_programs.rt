//! Programs of Courier's notation that C holds.

ghost use Rattle.std.specs.Prelude.{◌≡◌, ◌≢◌, ◌++◌, ◌∷◌, []};
ghost use Rattle.courier_programs.specs.Texts.{text_meant};
ghost use Rattle.xns_c.specs.Programs.{ReadingWants, ReadsText, fault_given};
ghost use Rattle.xns_c.specs.Results.{ok, no_memory};

use crate::notation_fault::XnsNotationFault;
use crate::reasons::program_reason_number;
use crate::results::{NO_MEMORY, OK, WRONG_TEXT};
use courier_programs::{Program, ProgramReason, ProgramRefusal, line_and_column, read_text};
use std::alloc::Global;

/// The programs that were read, in their order.
#[derive(Drop)]
pub struct KeptPrograms {
    pub programs: Vec<Program>,
}

/// Where a text is wrong, and why.
fn fault_out(text: &[u8], place: usize, reason: ProgramReason) -> XnsNotationFault
    ensures { result ≡ fault_given text.now (place, reason) }
{
    let (line, column) = line_and_column(text, place);
    XnsNotationFault {
        line,
        column,
        reason: program_reason_number(reason),
    }
}

impl KeptPrograms {
    /// No programs.
    pub fn none(alloc: Global) -> KeptPrograms
        ensures { result.programs.items ≡ [] }
    {
        KeptPrograms {
            programs: Vec::new(alloc),
        }
    }

    /// Adds a program behind the others.
    fn add(&mut self, program: Program) -> u32
        ensures added { result ≢ no_memory → (result ≡ ok) × (self.new.programs.items ≡ self.old.programs.items ++ program ∷ []) }
        ensures memory { result ≡ no_memory → self.new.programs.items ≡ self.old.programs.items }
    {
        match self.programs.push(program) {
            Ok(()) => OK,
            Err(_) => NO_MEMORY,
        }
    }

    /// Reads a text in Courier's notation behind the programs that were read before.
    pub fn read(&mut self, alloc: Global, text: &[u8], fault: &mut XnsNotationFault) -> u32
        ensures read { result ≢ no_memory → ReadsText (text_meant text.now self.old.programs.items) text.now
            self.old.programs.items self.new.programs.items fault.old fault.new result }
        ensures memory { result ≡ no_memory → (self.new.programs.items ≡ self.old.programs.items) × (fault.new ≡ fault.old) }
        ensures wants { result ≡ no_memory → ReadingWants text.now self.old.programs.items }
    {
        match read_text(alloc, text, &self.programs) {
            Ok(program) => self.add(program),
            Err(ProgramRefusal::Wrong { place, reason }) => {
                *fault = fault_out(text, place, reason);
                WRONG_TEXT
            }
            Err(ProgramRefusal::NoMemory) => NO_MEMORY,
        }
    }
}
