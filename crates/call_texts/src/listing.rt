//! A program line by line.

ghost use Rattle.std.specs.Prelude.{[], map};
ghost use Rattle.std.specs.List.{flat_map};
ghost use Rattle.courier_programs.specs.Meanings.{components_seen, resolved_error, resolved_procedure, resolved_model};
ghost use Rattle.call_texts.specs.Appending.{AppendsText};
ghost use Rattle.call_texts.specs.Calls.{program_name};
ghost use Rattle.call_texts.specs.Listing.{components_line, error_line, line_head, names_text, numbered_text, procedure_line, program_text, results_end};

use crate::appending::{append, append_number, append_program_name};
use courier_programs::{Procedure, Program, RemoteError};
use courier_texts::Named;
use std::alloc::AllocError;

/// Appends names with commas between.
fn append_names(out: &mut Vec<u8>, components: &[(Vec<u8>, Named)]) -> Result<(), AllocError>
    ensures { AppendsText result (names_text [] (components_seen components.now)) out.old out.new }
{
    let mut front: &[u8] = b"";
    for component in components {
        append(out, front)?;
        append(out, &component.0)?;
        front = b", ";
    }
    Ok(())
}

fn append_components(out: &mut Vec<u8>, components: &[(Vec<u8>, Named)]) -> Result<(), AllocError>
    ensures { AppendsText result (components_line (components_seen components.now)) out.old out.new }
{
    append(out, b"[")?;
    append_names(out, components)?;
    append(out, b"]")
}

fn append_numbered(
    out: &mut Vec<u8>,
    kind: &[u8],
    number: u16,
    name: &[u8],
) -> Result<(), AllocError>
    ensures { AppendsText result (numbered_text kind.now number name.now) out.old out.new }
{
    append(out, kind)?;
    append_number(out, u32::from(number))?;
    append(out, b" ")?;
    append(out, name)?;
    append(out, b" ")
}

/// Appends what the line of a procedure or an error begins with.
#[tactic(auto, unfolding(crate::specs::Listing::line_head))]
fn append_head(
    out: &mut Vec<u8>,
    program: &Program,
    kind: &[u8],
    number: u16,
    name: &[u8],
) -> Result<(), AllocError>
    ensures { AppendsText result (line_head (program_name (resolved_model program.now)) kind.now number name.now) out.old out.new }
{
    append_program_name(out, program)?;
    append_numbered(out, kind, number, name)
}

/// Appends the components of results, and the end of the line.
fn append_results(out: &mut Vec<u8>, components: &[(Vec<u8>, Named)]) -> Result<(), AllocError>
    ensures { AppendsText result (results_end (components_seen components.now)) out.old out.new }
{
    append(out, b" returns ")?;
    append_components(out, components)?;
    append(out, b"\n")
}

#[tactic(auto, unfolding(crate::specs::Listing::procedure_line))]
fn append_procedure(
    out: &mut Vec<u8>,
    program: &Program,
    procedure: &Procedure,
) -> Result<(), AllocError>
    ensures { AppendsText result (procedure_line (program_name (resolved_model program.now)) (resolved_procedure procedure.now)) out.old out.new }
{
    append_head(
        out,
        program,
        b" procedure ",
        procedure.number,
        &procedure.name,
    )?;
    append_components(out, &procedure.arguments.components)?;
    append_results(out, &procedure.results.components)
}

#[tactic(auto, unfolding(crate::specs::Listing::error_line))]
fn append_error(out: &mut Vec<u8>, program: &Program, error: &RemoteError) -> Result<(), AllocError>
    ensures { AppendsText result (error_line (program_name (resolved_model program.now)) (resolved_error error.now)) out.old out.new }
{
    append_head(out, program, b" error ", error.number, &error.name)?;
    append_components(out, &error.arguments.components)?;
    append(out, b"\n")
}

fn append_procedures(out: &mut Vec<u8>, program: &Program) -> Result<(), AllocError>
    ensures { AppendsText result (flat_map (procedure_line (program_name (resolved_model program.now))) (map resolved_procedure program.now.procedures.items)) out.old out.new }
{
    for procedure in &program.procedures {
        append_procedure(out, program, procedure)?;
    }
    Ok(())
}

fn append_errors(out: &mut Vec<u8>, program: &Program) -> Result<(), AllocError>
    ensures { AppendsText result (flat_map (error_line (program_name (resolved_model program.now))) (map resolved_error program.now.errors.items)) out.old out.new }
{
    for error in &program.errors {
        append_error(out, program, error)?;
    }
    Ok(())
}

/// Appends a line of the program, one of each procedure and one of each error, in the order of their
/// declarations. The only error is want of memory, where the text has no room in `out`; a part of it may stand
/// then.
#[tactic(auto, unfolding(crate::specs::Listing::program_text))]
pub fn append_program(out: &mut Vec<u8>, program: &Program) -> Result<(), AllocError>
    ensures { AppendsText result (program_text (resolved_model program.now)) out.old out.new }
{
    append_program_name(out, program)?;
    append(out, b"\n")?;
    append_procedures(out, program)?;
    append_errors(out, program)
}
