//! Programs whose names are resolved.

ghost use Rattle.std.specs.Prelude.{◌≡◌, ◌<◌, [], IfOk, IsOk, OnErr, length};
ghost use Rattle.courier_notation.specs.Failing.{Finds, Gives, IfNoMemory};
ghost use Rattle.courier_notation.specs.ProgramModels.{declaration_view, declaration_views, declared_view, program_view};
ghost use Rattle.courier_programs.specs.Declarations.{declaration_step};
ghost use Rattle.courier_programs.specs.Meanings.{resolved_model};
ghost use Rattle.courier_programs.specs.Memory.{DeclaringWants, FirstWasRead, ResolvingWants};
ghost use Rattle.courier_programs.specs.Faults.{steps};
ghost use Rattle.courier_programs.specs.Resolving.{dependency_step, reported as reported_in, reports_step, resolved};
ghost use Rattle.courier_programs.specs.Resolving.{empty_program as empty_program_of, with_dependencies as with_dependencies_of, with_reports as with_reports_of};
ghost use Rattle.courier_programs.specs.Scopes.{env, names_seen, name_text};

use crate::bytes::{copied, text};
use crate::declarations::take_declaration;
use crate::finding::program_of;
use crate::limits::MOST_TYPE_PARTS;
use crate::name_reason::NameReason;
use crate::program::{Meaning, Program};
use crate::refusal::{Refusal, wrong};
use crate::scope::{Scope, dependency_of, last_name, look_up};
use courier_notation::{Declaration, Declared, Dependency, Reference, WrittenProgram};
use std::alloc::{AllocError, Global};

/// Puts a dependency behind the others, if its name differs from theirs and its program was read.
fn take_dependency(
    names: &[Vec<u8>],
    before: &[Program],
    earlier: &mut Vec<Dependency>,
    dependency: Dependency,
) -> Result<(), Refusal>
    ensures exact { Gives (λ _. earlier.new.items) result (dependency_step (names_seen names.now) before.now earlier.old.items dependency) }
    ensures memory { IfNoMemory result (IsOk (dependency_step (names_seen names.now) before.now earlier.old.items dependency)) }
{
    if dependency_of(names, earlier, dependency.name).is_some() {
        return Err(wrong(dependency.name, NameReason::DoubledName));
    }
    match program_of(before, dependency.number, dependency.version) {
        Some(_) => {
            earlier.push(dependency)?;
            Ok(())
        }
        None => Err(wrong(dependency.name, NameReason::NotRead)),
    }
}

/// The dependencies, each of which was read.
fn dependencies_of(
    alloc: Global,
    names: &[Vec<u8>],
    before: &[Program],
    written: &[Dependency],
) -> Result<Vec<Dependency>, Refusal>
    ensures exact { Gives (λ x. x.items) result (steps (dependency_step (names_seen names.now) before.now) [] written.now) }
    ensures memory { IfNoMemory result (FirstWasRead before.now written.now) }
{
    let mut dependencies = Vec::new(alloc);
    for dependency in written {
        take_dependency(names, before, &mut dependencies, *dependency)?;
    }
    Ok(dependencies)
}

/// Adds the declarations to the program.
fn take_declarations(
    alloc: Global,
    names: &[Vec<u8>],
    before: &[Program],
    dependencies: &[Dependency],
    program: &mut Program,
    declarations: &[Declaration],
    room: usize,
) -> Result<usize, Refusal>
    ensures exact { Gives (λ left. (resolved_model program.new, left)) result (steps (declaration_step (names_seen names.now) before.now dependencies.now) (resolved_model program.old, room) (declaration_views declarations.now)) }
    ensures memory { IfNoMemory result (0 < length declarations.now) }
{
    let mut left = room;
    for declaration in declarations {
        left = take_declaration(
            alloc,
            names,
            before,
            dependencies,
            program,
            declaration,
            left,
        )?;
    }
    Ok(left)
}

/// An error that is reported is one that is declared.
#[tactic(auto, unfolding(crate::specs::Resolving::reported))]
fn check_report(scope: &Scope, reference: Reference) -> Result<(), Refusal>
    ensures { Finds (λ _. tt) result (reported_in (env scope.now) tt reference) }
{
    match look_up(scope, reference)? {
        Some(Meaning::Error) => Ok(()),
        _ => Err(wrong(last_name(reference), NameReason::UnknownName)),
    }
}

fn check_references(scope: &Scope, references: &[Reference]) -> Result<(), Refusal>
    ensures { Finds (λ _. tt) result (steps (reported_in (env scope.now)) tt references.now) }
{
    for reference in references {
        check_report(scope, *reference)?;
    }
    Ok(())
}

/// The errors that a declaration reports are declared.
fn check_reports(scope: &Scope, declaration: &Declaration) -> Result<(), Refusal>
    ensures { Finds (λ _. tt) result (reports_step (env scope.now) tt (declaration_view declaration.now)) }
{
    match &declaration.declared {
        Declared::Procedure {
            arguments: _,
            results: _,
            errors,
            number: _,
        } => check_references(scope, errors),
        _ => Ok(()),
    }
}

/// The errors that procedures report are declared, perhaps behind them.
fn check_all_reports(scope: &Scope, declarations: &[Declaration]) -> Result<(), Refusal>
    ensures { Finds (λ _. tt) result (steps (reports_step (env scope.now)) tt (declaration_views declarations.now)) }
{
    for declaration in declarations {
        check_reports(scope, declaration)?;
    }
    Ok(())
}

/// The program, if the errors that its procedures report are declared.
#[tactic(auto, unfolding(crate::specs::Resolving::with_reports))]
fn with_reports(
    names: &[Vec<u8>],
    before: &[Program],
    dependencies: &[Dependency],
    program: Program,
    written: &WrittenProgram,
) -> Result<Program, Refusal>
    ensures { Finds resolved_model result (with_reports_of (names_seen names.now) before.now dependencies.now (resolved_model program) (program_view written.now)) }
{
    let scope = Scope {
        names,
        before,
        dependencies,
        meanings: &program.meanings,
        own: written.name,
        is_type: false,
    };
    check_all_reports(&scope, &written.declarations)?;
    Ok(program)
}

/// A program in which nothing is declared.
fn empty_program(
    alloc: Global,
    names: &[Vec<u8>],
    written: &WrittenProgram,
) -> Result<Program, AllocError>
    ensures exact { IfOk result (λ program. resolved_model program ≡ empty_program_of (names_seen names.now) (program_view written.now)) }
    ensures memory { OnErr result (0 < length (name_text (names_seen names.now) written.now.name)) }
{
    let name = copied(alloc, text(names, written.name))?;
    Ok(Program {
        name,
        number: written.number,
        version: written.version,
        meanings: Vec::new(alloc),
        procedures: Vec::new(alloc),
        errors: Vec::new(alloc),
    })
}

/// The program that is written, with these dependencies.
#[tactic(auto, unfolding(crate::specs::Resolving::with_dependencies))]
fn with_dependencies(
    alloc: Global,
    names: &[Vec<u8>],
    before: &[Program],
    dependencies: &[Dependency],
    written: &WrittenProgram,
) -> Result<Program, Refusal>
    ensures exact { Gives resolved_model result (with_dependencies_of (names_seen names.now) before.now dependencies.now (program_view written.now)) }
    ensures memory { IfNoMemory result (DeclaringWants (names_seen names.now) (program_view written.now)) }
{
    let mut program = empty_program(alloc, names, written)?;
    let _left = take_declarations(
        alloc,
        names,
        before,
        dependencies,
        &mut program,
        &written.declarations,
        MOST_TYPE_PARTS,
    )?;
    with_reports(names, before, dependencies, program, written)
}

/// The program that is written, behind the programs that were read before. `names` are the texts of its names.
///
/// `Wrong` has the first fault: of the program itself, of its dependencies, of its declarations, or of the
/// errors that its procedures report, each from left to right. `NoMemory` only where a growth was refused, no
/// program before has the number and the version, and what it depends upon first was read.
#[tactic(auto, unfolding(crate::specs::Resolving::resolved))]
pub fn resolve(
    alloc: Global,
    names: &[Vec<u8>],
    before: &[Program],
    written: &WrittenProgram,
) -> Result<Program, Refusal>
    ensures exact { Gives resolved_model result (resolved (names_seen names.now) before.now (program_view written.now)) }
    ensures memory { IfNoMemory result (ResolvingWants before.now (program_view written.now)) }
{
    if program_of(before, written.number, written.version).is_some() {
        return Err(wrong(written.name, NameReason::DoubledProgram));
    }
    let dependencies = dependencies_of(alloc, names, before, &written.dependencies)?;
    with_dependencies(alloc, names, before, &dependencies, written)
}
