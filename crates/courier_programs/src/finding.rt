//! Programs, procedures and errors found by number.

ghost use Rattle.std.specs.Prelude.{◌≡◌, IfNone, IfSome, None, Some, map};
ghost use Rattle.courier_programs.specs.Declarations.{error_by, procedure_by};
ghost use Rattle.courier_programs.specs.Meanings.{resolved_error, resolved_procedure};
ghost use Rattle.courier_programs.specs.Scopes.{program_by};

use crate::program::{Procedure, Program, RemoteError};

/// The program with that number and version. `None` if none of the programs has both.
pub fn program_of(programs: &[Program], number: u32, version: u16) -> Option<&Program>
    ensures some { IfSome result (λ p. program_by programs.now number version ≡ Some p.now) }
    ensures none { IfNone result (program_by programs.now number version ≡ None) }
{
    programs.iter().find(|program| program.number == number && program.version == version)
}

/// The procedure with that number. `None` if none has it.
pub fn procedure_of(procedures: &[Procedure], number: u16) -> Option<&Procedure>
    ensures some { IfSome result (λ p. procedure_by (map resolved_procedure procedures.now) number ≡ Some (resolved_procedure p.now)) }
    ensures none { IfNone result (procedure_by (map resolved_procedure procedures.now) number ≡ None) }
{
    procedures
        .iter()
        .find(|procedure| procedure.number == number)
}

/// The error with that number. `None` if none has it.
pub fn error_of(errors: &[RemoteError], number: u16) -> Option<&RemoteError>
    ensures some { IfSome result (λ e. error_by (map resolved_error errors.now) number ≡ Some (resolved_error e.now)) }
    ensures none { IfNone result (error_by (map resolved_error errors.now) number ≡ None) }
{
    errors.iter().find(|error| error.number == number)
}
