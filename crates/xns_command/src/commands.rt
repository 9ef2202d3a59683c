//! The commands of the program.
ghost use Rattle.xns_command.specs.Commands.{mode_printout};
ghost use Rattle.xns_lines.specs.Printouts.{Prints};

use crate::job::Job;
use crate::mode::Mode;
use std::io::{Read, Write};
use xns_calls::calls;
use xns_dump::dump;
use xns_lines::RunResult;
use xns_sim::sim;

/// Runs the command of the job, which reads the reader to its end, and writes to the writer. The result says whether a line
/// was refused.
///
/// # Errors
/// Those of the command: `dump`, `calls` or `sim`.
pub fn perform<R: Read, W: Write>(job: &Job<'_>, reader: &mut R, writer: &mut W) -> RunResult
    ensures { Prints (mode_printout job.now.programs job.now.mode) result
        (R.remaining reader.old) (R.remaining reader.new) (W.contents writer.old) (W.contents writer.new) }
{
    match job.mode {
        Mode::Dump => dump(job.alloc, reader, writer),
        Mode::Calls => calls(job.alloc, job.programs, reader, writer),
        Mode::Sim => sim(job.alloc, reader, writer),
    }
}
