//! The commands of the program that read a file.
ghost use Rattle.std.specs.Prelude.{◌≡◌, ◌≤◌, ◌<◌, IfErr, IfOk, length, take};
ghost use Rattle.std.specs.Io.KnownBytes.{Consumes, IsAtEnd};
ghost use Rattle.xns_command.specs.Commands.{mode_printout};
ghost use Rattle.xns_command.specs.Files.{file_printout, lines_in_file, printout_as};
ghost use Rattle.xns_lines.specs.Printouts.{Prints};

use crate::commands::perform;
use crate::job::Job;
use crate::mode::Mode;
use std::io::{Read, Write};
use xns_calls::calls_capture;
use xns_captures::{FileFault, FileResult, is_capture};
use xns_dump::dump_capture;
use xns_lines::RunFault;

/// How many bytes tell whether a file is a capture.
const FIRST: usize = 4;

/// Runs the command of the job over a file, which is a capture, known by its first bytes, or a file of lines; the script
/// of `sim` has lines always. The result says whether something was refused.
///
/// # Errors
/// Those of the command: `dump`, `calls` or `sim`, or `dump_capture` or `calls_capture`.
pub fn perform_file<R: Read, W: Write>(job: &Job<'_>, reader: &mut R, writer: &mut W) -> FileResult
    ensures { Prints (file_printout job.now.programs job.now.times job.now.mode) result
        (R.remaining reader.old) (R.remaining reader.new) (W.contents writer.old) (W.contents writer.new) }
{
    let mut first = [0u8; FIRST];
    let count = match read_first(reader, &mut first) {
        Ok(count) => count,
        Err(fault) => return Err(FileFault::Run(fault)),
    };
    let is_capture = is_capture(&first[..count]);
    let mut whole = (&first[..count]).chain(reader);
    perform_as(job, is_capture, &mut whole, writer)
}

/// Runs the command of the job over a file that is a capture, or has lines.
fn perform_as<R: Read, W: Write>(
    job: &Job<'_>,
    is_capture: bool,
    reader: &mut R,
    writer: &mut W,
) -> FileResult
    ensures { Prints (printout_as job.now.programs is_capture job.now.times job.now.mode) result
        (R.remaining reader.old) (R.remaining reader.new) (W.contents writer.old) (W.contents writer.new) }
{
    if !is_capture {
        return perform_lines(job, reader, writer);
    }
    match job.mode {
        Mode::Dump => dump_capture(job.alloc, reader, writer),
        Mode::Calls => calls_capture(job.alloc, job.programs, job.times, reader, writer),
        Mode::Sim => perform_lines(job, reader, writer),
    }
}

/// Runs the command of the job over a file that has lines.
fn perform_lines<R: Read, W: Write>(job: &Job<'_>, reader: &mut R, writer: &mut W) -> FileResult
    ensures { Prints (lines_in_file (mode_printout job.now.programs job.now.mode)) result
        (R.remaining reader.old) (R.remaining reader.new) (W.contents writer.old) (W.contents writer.new) }
{
    match perform(job, reader, writer) {
        Ok(refused) => Ok(refused),
        Err(fault) => Err(FileFault::Run(fault)),
    }
}

/// Reads the first bytes, fewer only at the end of the file, and says how many there are. The only error is `Read`.
pub(crate) fn read_first<R: Read>(reader: &mut R, first: &mut [u8]) -> Result<usize, RunFault>
    ensures few { IfOk result (λ count. count ≤ length first.new) }
    ensures room { length first.new ≡ length first.old }
    ensures read { IfOk result (λ count. Consumes (R.remaining reader.old) (R.remaining reader.new) (take count first.new)) }
    ensures end { IfOk result (λ count. count < length first.new → IsAtEnd (R.remaining reader.new)) }
    ensures fault { IfErr result (λ fault. fault ≡ RunFault.Read) }
{
    let mut count = 0;
    while count < first.len() {
        match reader.read(&mut first[count..]) {
            Ok(0) => return Ok(count),
            Ok(more) => count += more,
            Err(_) => return Err(RunFault::Read),
        }
    }
    Ok(count)
}
