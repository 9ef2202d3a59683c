//! A text that grows.

ghost use Rattle.std.specs.Fmt.{decimal};
ghost use Rattle.courier_programs.specs.Meanings.{resolved_model};
ghost use Rattle.call_texts.specs.Appending.{AppendsText};
ghost use Rattle.call_texts.specs.Calls.{program_name};

use courier_programs::Program;
use itoa::Buffer;
use std::alloc::AllocError;

/// Appends the bytes.
pub(crate) fn append(out: &mut Vec<u8>, bytes: &[u8]) -> Result<(), AllocError>
    ensures { AppendsText result bytes.now out.old out.new }
{
    out.extend_from_slice(bytes)
}

/// Appends a number in decimal.
pub(crate) fn append_number(out: &mut Vec<u8>, number: u32) -> Result<(), AllocError>
    ensures { AppendsText result (decimal number) out.old out.new }
{
    let mut buffer = Buffer::new();
    append(out, buffer.format(number).as_bytes())
}

/// Appends the name of a program, with its number and version.
pub(crate) fn append_program_name(out: &mut Vec<u8>, program: &Program) -> Result<(), AllocError>
    ensures { AppendsText result (program_name (resolved_model program.now)) out.old out.new }
{
    append(out, &program.name)?;
    append(out, b" ")?;
    append_number(out, program.number)?;
    append(out, b".")?;
    append_number(out, u32::from(program.version))
}
