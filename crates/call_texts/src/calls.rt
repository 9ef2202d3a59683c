//! The texts of calls, returns and aborts.

ghost use Rattle.std.specs.Prelude.{◌≡◌, ◌++◌, IfNone, IfOk, IfSome, codes, option_and_then};
ghost use Rattle.courier_programs.specs.Declarations.{procedure_by};
ghost use Rattle.courier_programs.specs.Meanings.{fields_model, resolved_model, resolved_procedure};
ghost use Rattle.courier_programs.specs.Scopes.{program_by};
ghost use Rattle.call_texts.specs.Calls.{AbortWants, CallWants, ReturnWants, ShowsDeclared, abort_shown, call_shown, named_shown, program_name, return_shown};
ghost use Rattle.call_texts.specs.Showing.{IfNoMemory, ShowingWants, Shows};

use crate::appending::append_program_name;
use crate::showing::show;
use crate::unread::Unshown;
use courier_programs::{Fields, Procedure, Program, error_of, procedure_of, program_of};
use std::alloc::{AllocError, Global};

/// The program, in this version, and its procedure.
fn called_of(
    programs: &[Program],
    program: u32,
    version: u16,
    procedure: u16,
) -> Option<(&Program, &Procedure)>
    ensures some { IfSome result (λ called. (program_by programs.now program version ≡ Some called.0.now) × (procedure_by (resolved_model called.0.now).procedures procedure ≡ Some (resolved_procedure called.1.now))) }
    ensures none { IfNone result (option_and_then (λ p. procedure_by (resolved_model p).procedures procedure) (program_by programs.now program version) ≡ None) }
{
    let found = program_of(programs, program, version)?;
    let called = procedure_of(&found.procedures, procedure)?;
    Some((found, called))
}

/// The line of a call: the program, the name of the procedure, and the text of the arguments.
fn call_line(
    alloc: Global,
    program: &Program,
    name: &[u8],
    text: &[u8],
) -> Result<Vec<u8>, AllocError>
    ensures { IfOk result (λ line. line.items ≡ program_name (resolved_model program.now) ++ codes " " ++ name.now ++ codes " " ++ text.now) }
{
    let mut line = Vec::new(alloc);
    append_program_name(&mut line, program)?;
    line.extend_from_slice(b" ")?;
    line.extend_from_slice(name)?;
    line.extend_from_slice(b" ")?;
    line.extend_from_slice(text)?;
    Ok(line)
}

/// The line of a return or an abort: the name, and the text of what came back.
fn named_line(alloc: Global, name: &[u8], text: &[u8]) -> Result<Vec<u8>, AllocError>
    ensures { IfOk result (λ line. line.items ≡ name.now ++ codes " " ++ text.now) }
{
    let mut line = Vec::new(alloc);
    line.extend_from_slice(name)?;
    line.extend_from_slice(b" ")?;
    line.extend_from_slice(text)?;
    Ok(line)
}

/// The text of a return or an abort: the name, and the record that the words are.
fn named_text(
    alloc: Global,
    name: &[u8],
    fields: &Fields,
    words: &[u16],
) -> Result<Vec<u8>, Unshown>
    ensures exact { Shows result (named_shown name.now (fields_model fields.now) words.now) }
    ensures memory { IfNoMemory result (ShowingWants (fields_model fields.now) words.now) }
{
    let text = show(alloc, fields, words)?;
    named_line(alloc, name, &text).map_err(|_| Unshown::NoMemory)
}

/// The text of a call with these words as arguments. `None` where the program, in this version, or the procedure
/// is not declared.
#[tactic(auto, unfolding(crate::specs::Calls::call_shown))]
pub fn call_text(
    alloc: Global,
    programs: &[Program],
    program: u32,
    version: u16,
    procedure: u16,
    words: &[u16],
) -> Result<Option<Vec<u8>>, Unshown>
    ensures exact { ShowsDeclared result (call_shown programs.now program version procedure words.now) }
    ensures memory { IfNoMemory result (CallWants programs.now program version procedure words.now) }
{
    let Some((found, called)) = called_of(programs, program, version, procedure) else {
        return Ok(None);
    };
    let text = show(alloc, &called.arguments, words)?;
    match call_line(alloc, found, &called.name, &text) {
        Ok(line) => Ok(Some(line)),
        Err(AllocError) => Err(Unshown::NoMemory),
    }
}

/// The text of a return of a call, with these words as results. `None` where the call's program, in this version,
/// or its procedure is not declared.
#[tactic(auto, unfolding(crate::specs::Calls::return_shown))]
pub fn return_text(
    alloc: Global,
    programs: &[Program],
    program: u32,
    version: u16,
    procedure: u16,
    words: &[u16],
) -> Result<Option<Vec<u8>>, Unshown>
    ensures exact { ShowsDeclared result (return_shown programs.now program version procedure words.now) }
    ensures memory { IfNoMemory result (ReturnWants programs.now program version procedure words.now) }
{
    match called_of(programs, program, version, procedure) {
        Some((_, called)) => Ok(Some(named_text(alloc, &called.name, &called.results, words)?)),
        None => Ok(None),
    }
}

/// The text of an abort of a call, with these words as the error's arguments. `None` where the call's program, in
/// this version, or the error is not declared.
#[tactic(auto, unfolding(crate::specs::Calls::abort_shown))]
pub fn abort_text(
    alloc: Global,
    programs: &[Program],
    program: u32,
    version: u16,
    error: u16,
    words: &[u16],
) -> Result<Option<Vec<u8>>, Unshown>
    ensures exact { ShowsDeclared result (abort_shown programs.now program version error words.now) }
    ensures memory { IfNoMemory result (AbortWants programs.now program version error words.now) }
{
    let Some(found) = program_of(programs, program, version) else {
        return Ok(None);
    };
    match error_of(&found.errors, error) {
        Some(raised) => Ok(Some(named_text(alloc, &raised.name, &raised.arguments, words)?)),
        None => Ok(None),
    }
}
