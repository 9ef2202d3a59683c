//! Descriptions of remote programs (XSIS 038112, Courier), read from files and printed.
ghost use Rattle.std.specs.Prelude.{◌≡◌, ◌+◌, IfOk, IfSome, length};
ghost use Rattle.courier_notation.specs.Lexing.{most_text};
ghost use Rattle.courier_programs.specs.Meanings.{resolved_model};
ghost use Rattle.call_texts.specs.Listing.{program_text};
ghost use Rattle.xns_command.specs.Descriptions.{IsDescribed, PrintsDescription, TakesDescription};

use crate::description_fault::DescriptionFault;
use crate::files::read_first;
use call_texts::append_program;
use courier_notation::limits::MOST_TEXT;
use courier_programs::{Program, ProgramRefusal, line_and_column, read_text};
use std::alloc::{AllocError, Global};
use std::io::{Read, Write};
use xns_lines::{RunFault, write_whole};

/// The program that a text describes, behind those that were read before it.
fn read_whole(alloc: Global, text: &[u8], before: &[Program]) -> Result<Program, DescriptionFault>
    ensures { IsDescribed result text.now before.now }
{
    match read_text(alloc, text, before) {
        Ok(program) => Ok(program),
        Err(ProgramRefusal::Wrong { place, reason }) => {
            let (line, column) = line_and_column(text, place);
            Err(DescriptionFault::Wrong {
                line,
                column,
                reason,
            })
        }
        Err(ProgramRefusal::NoMemory) => Err(DescriptionFault::Run(RunFault::NoMemory)),
    }
}

/// Reads the program that a file describes, behind those that were read before it. Of a file that is longer than a
/// description may be, no more is read than shows that.
///
/// # Errors
/// `Wrong` with the first fault of the text; `Run` where a read fails (`Read`) or a growth is refused (`NoMemory`).
pub fn read_description<R: Read>(
    alloc: Global,
    reader: &mut R,
    before: &[Program],
) -> Result<Program, DescriptionFault>
    ensures { IfSome (R.remaining reader.old) (λ text. IsDescribed result text before.now) }
{
    let mut room = vec![in alloc; 0u8; MOST_TEXT + 1]?;
    read_into(alloc, reader, &mut room, before)
}

/// Reads the program that a file describes, in room for one byte more than a description may have.
fn read_into<R: Read>(
    alloc: Global,
    reader: &mut R,
    room: &mut [u8],
    before: &[Program],
) -> Result<Program, DescriptionFault>
    requires { length room.old ≡ most_text + 1 }
    ensures { IfSome (R.remaining reader.old) (λ text. IsDescribed result text before.now) }
{
    match read_first(reader, room) {
        Ok(count) => read_whole(alloc, &room[..count], before),
        Err(fault) => Err(DescriptionFault::Run(fault)),
    }
}

/// Reads the program that a file describes, and puts it behind those that were read before it.
///
/// # Errors
/// Those of `read_description`; then nothing is put behind the others.
pub fn take_description<R: Read>(
    alloc: Global,
    reader: &mut R,
    programs: &mut Vec<Program>,
) -> Result<(), DescriptionFault>
    ensures { IfSome (R.remaining reader.old) (λ text. TakesDescription result text programs.old.items programs.new.items) }
{
    let program = read_description(alloc, reader, programs)?;
    programs.push(program)?;
    Ok(())
}

/// The lines of a program: one of the program, one of each procedure and one of each error.
fn lines_of(alloc: Global, program: &Program) -> Result<Vec<u8>, AllocError>
    ensures { IfOk result (λ lines. lines.items ≡ program_text (resolved_model program.now)) }
{
    let mut lines = Vec::new(alloc);
    append_program(&mut lines, program)?;
    Ok(lines)
}

/// Reads the program that a file describes, puts it behind those that were read before it, and writes its lines.
///
/// # Errors
/// Those of `read_description`, and `Run` where a write fails or takes no byte (`Write`). Only with `Write` is anything
/// written, or the program put behind the others.
pub fn print_description<R: Read, W: Write>(
    alloc: Global,
    reader: &mut R,
    writer: &mut W,
    programs: &mut Vec<Program>,
) -> Result<(), DescriptionFault>
    ensures { IfSome (R.remaining reader.old) (λ text. PrintsDescription result text programs.old.items programs.new.items
        (W.contents writer.old) (W.contents writer.new)) }
{
    let program = read_description(alloc, reader, programs)?;
    let lines = lines_of(alloc, &program)?;
    programs.push(program)?;
    match write_whole(writer, &lines) {
        Ok(()) => Ok(()),
        Err(fault) => Err(DescriptionFault::Run(fault)),
    }
}
