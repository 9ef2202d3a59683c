//! Programs, procedures and errors found by name, and their names by number.

ghost use Rattle.std.specs.Prelude.{◌≡◌, IfNone, IfSome, MatchOption, None, Some, map};
ghost use Rattle.std.specs.Str.{bytes_eq};
ghost use Rattle.courier_programs.specs.Meanings.{resolved_error, resolved_procedure};
ghost use Rattle.courier_programs.specs.Scopes.{program_by};
ghost use Rattle.xns_c.specs.Programs.{error_called, error_called_in, error_name, error_number, error_numbered_in, procedure_called};
ghost use Rattle.xns_c.specs.Programs.{procedure_called_in, procedure_name, procedure_number, procedure_numbered_in};
ghost use Rattle.xns_c.specs.Programs.{program_called as program_called_of, given_program_name};

use courier_programs::{Procedure, Program, RemoteError, error_of, procedure_of, program_of};

/// Whether two names are the same; case counts.
fn is_same(a: &[u8], b: &[u8]) -> bool
    ensures { result ≡ bytes_eq a.now b.now }
{
    a == b
}

/// The first program of this name.
pub fn program_called<'a>(programs: &'a [Program], name: &[u8]) -> Option<&'a Program>
    ensures some { IfSome result (λ p. program_called_of programs.now name.now ≡ Some p.now) }
    ensures none { IfNone result (program_called_of programs.now name.now ≡ None) }
{
    for program in programs {
        if is_same(&program.name, name) {
            return Some(program);
        }
    }
    None
}

/// The number of the procedure of this name.
fn number_of_procedure(procedures: &[Procedure], name: &[u8]) -> Option<u16>
    ensures { result ≡ procedure_number (procedure_called (map resolved_procedure procedures.now) name.now) }
{
    for procedure in procedures {
        if is_same(&procedure.name, name) {
            return Some(procedure.number);
        }
    }
    None
}

/// The number of the error of this name.
fn number_of_error(errors: &[RemoteError], name: &[u8]) -> Option<u16>
    ensures { result ≡ error_number (error_called (map resolved_error errors.now) name.now) }
{
    for error in errors {
        if is_same(&error.name, name) {
            return Some(error.number);
        }
    }
    None
}

/// The number of the procedure of this name in a program. `None` where the program was not read, or declares none.
pub fn find_procedure(programs: &[Program], program: u32, version: u16, name: &[u8]) -> Option<u16>
    ensures { result ≡ procedure_number (procedure_called_in name.now (program_by programs.now program version)) }
{
    match program_of(programs, program, version) {
        Some(found) => number_of_procedure(&found.procedures, name),
        None => None,
    }
}

/// The number of the error of this name in a program. `None` where the program was not read, or declares none.
pub fn find_error(programs: &[Program], program: u32, version: u16, name: &[u8]) -> Option<u16>
    ensures { result ≡ error_number (error_called_in name.now (program_by programs.now program version)) }
{
    match program_of(programs, program, version) {
        Some(found) => number_of_error(&found.errors, name),
        None => None,
    }
}

/// The name of a program. `None` where it was not read.
pub fn name_of_program(programs: &[Program], program: u32, version: u16) -> Option<&[u8]>
    ensures { MatchOption result (given_program_name (program_by programs.now program version) ≡ None)
        (λ name. given_program_name (program_by programs.now program version) ≡ Some name.now) }
{
    match program_of(programs, program, version) {
        Some(found) => Some(&found.name),
        None => None,
    }
}

/// The name of a procedure. `None` where its program was not read, or declares none of this number.
pub fn name_of_procedure(
    programs: &[Program],
    program: u32,
    version: u16,
    procedure: u16,
) -> Option<&[u8]>
    ensures { MatchOption result (procedure_name (procedure_numbered_in procedure (program_by programs.now program version)) ≡ None)
        (λ name. procedure_name (procedure_numbered_in procedure (program_by programs.now program version)) ≡ Some name.now) }
{
    match program_of(programs, program, version) {
        Some(found) => match procedure_of(&found.procedures, procedure) {
            Some(called) => Some(&called.name),
            None => None,
        },
        None => None,
    }
}

/// The name of an error. `None` where its program was not read, or declares none of this number.
pub fn name_of_error(programs: &[Program], program: u32, version: u16, error: u16) -> Option<&[u8]>
    ensures { MatchOption result (error_name (error_numbered_in error (program_by programs.now program version)) ≡ None)
        (λ name. error_name (error_numbered_in error (program_by programs.now program version)) ≡ Some name.now) }
{
    match program_of(programs, program, version) {
        Some(found) => match error_of(&found.errors, error) {
            Some(raised) => Some(&raised.name),
            None => None,
        },
        None => None,
    }
}
