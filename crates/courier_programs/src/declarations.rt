//! What declarations stand for.

ghost use Rattle.std.specs.Prelude.{◌≡◌, ◌<◌, IsOk, OnErr, OnOk, false, is_none, is_some, length, map, true};
ghost use Rattle.courier_types.specs.Check.{shape_fault};
ghost use Rattle.courier_types.specs.Shape.{shape_model};
ghost use Rattle.courier_notation.specs.Failing.{Finds, Gives, IfNoMemory};
ghost use Rattle.courier_notation.specs.ProgramModels.{declaration_view, declared_view};
ghost use Rattle.courier_notation.specs.Written.{field_models, type_model};
ghost use Rattle.courier_texts.specs.Named.{named_model};
ghost use Rattle.courier_programs.specs.Declarations.{addition_of, constant_meant, constant_value as constant_value_of};
ghost use Rattle.courier_programs.specs.Declarations.{declaration_meant, declaration_step, error_meant, is_type as is_type_of, numbered_once as numbered_once_of, once_meant};
ghost use Rattle.courier_programs.specs.Declarations.{procedure_meant, settled, sound, whole_fields as whole_fields_of, whole_type as whole_type_of, with_addition};
ghost use Rattle.courier_programs.specs.Meanings.{resolved_error, fields_model, meaning_model, meaning_of as meaning_in, resolved_procedure, resolved_model};
ghost use Rattle.courier_programs.specs.Memory.{AddingWants, AddedWants, ResolvedTypeWants};
ghost use Rattle.courier_programs.specs.Scopes.{env, names_seen, spent, name_text};

use crate::bytes::text;
use crate::finding::{error_of, procedure_of};
use crate::name_reason::NameReason;
use crate::program::{Fields, Meaning, Procedure, Program, RemoteError};
use crate::refusal::{Refusal, wrong};
use crate::scope::{Scope, meaning_of, spend, value_named};
use crate::types::{Maker, components_of, type_of};
use courier_notation::limits::MOST_DEPTH;
use courier_notation::{Constant, Declaration, Declared, Dependency, Group, WrittenType};
use courier_texts::{Named, shape_of, shape_of_record};
use courier_types::{Shape, ShapeFault};
use std::alloc::{AllocError, Global};

/// What a declaration adds to a program.
#[derive(Debug, Drop)]
pub enum Added {
    Meaning(Meaning),
    Procedure(Procedure),
    Error(RemoteError),
}

/// Checks a shape. Its fault is told at the name that is declared.
fn check(scope: &Scope, shape: &Shape) -> Result<(), Refusal>
    ensures told { Finds (λ _. tt) result (sound (env scope.now) (shape_model shape.now)) }
    ensures checked { OnOk result (is_none (shape_fault (shape_model shape.now)) ≡ true) }
{
    match shape.check() {
        Ok(()) => Ok(()),
        Err(ShapeFault::TooDeep) => Err(wrong(scope.own, NameReason::TooDeep)),
        Err(_) => Err(wrong(scope.own, NameReason::NoWords)),
    }
}

/// A type that stands by itself, and what is left of the room for parts.
#[tactic(auto, unfolding(crate::specs::Declarations::whole_type))]
fn whole_type(
    alloc: Global,
    scope: &Scope,
    room: usize,
    written: &WrittenType,
) -> Result<(Named, usize), Refusal>
    ensures exact { Gives (λ x. (named_model x.0, x.1)) result (whole_type_of (env scope.now) (type_model written.now) room) }
    ensures memory { IfNoMemory result (ResolvedTypeWants (env scope.now) (type_model written.now)) }
{
    let maker = Maker { alloc, scope };
    let (named, left) = type_of(maker, MOST_DEPTH, written, room)?;
    let shape = shape_of(alloc, &named)?;
    check(scope, &shape)?;
    Ok((named, left))
}

/// Arguments or results, and what is left of the room for parts.
#[tactic(auto, using(crate::proofs::Models::components_are), unfolding(crate::specs::Declarations::whole_fields))]
fn whole_fields(
    alloc: Global,
    scope: &Scope,
    room: usize,
    groups: &[Group<u32>],
) -> Result<(Fields, usize), Refusal>
    ensures exact { Gives (λ x. (fields_model x.0, x.1)) result (whole_fields_of (env scope.now) (field_models groups.now) room) }
    ensures memory { IfNoMemory result (IsOk (spent (env scope.now) room 1) × (0 < length groups.now)) }
{
    let left = spend(scope, room, 1)?;
    let maker = Maker { alloc, scope };
    let (components, left) = components_of(maker, MOST_DEPTH, groups, left)?;
    let shape = shape_of_record(alloc, &components)?;
    check(scope, &shape)?;
    Ok((Fields { components, shape }, left))
}

/// A type. One that is recursive may be declared, and stands for none.
fn type_added(
    alloc: Global,
    scope: &Scope,
    room: usize,
    written: &WrittenType,
) -> Result<(Added, usize), Refusal>
    ensures exact { Gives (λ x. (addition_of x.0, x.1)) result (settled room (whole_type_of (env scope.now) (type_model written.now) room)) }
    ensures memory { IfNoMemory result (ResolvedTypeWants (env scope.now) (type_model written.now)) }
{
    match whole_type(alloc, scope, room, written) {
        Ok((named, left)) => {
            let size = room.saturating_sub(left);
            Ok((Added::Meaning(Meaning::Type { named, size }), left))
        }
        Err(Refusal::Wrong { place, reason }) => {
            if reason == NameReason::Recursive {
                return Ok((Added::Meaning(Meaning::Recursive), room));
            }
            Err(wrong(place, reason))
        }
        Err(Refusal::NoMemory) => Err(Refusal::NoMemory),
    }
}

fn constant_value(scope: &Scope, constant: Constant) -> Result<Option<u32>, Refusal>
    ensures { Finds (λ x. x) result (constant_value_of (env scope.now) constant) }
{
    match constant {
        Constant::Number(number) => Ok(Some(number)),
        Constant::Named(reference) => value_named(scope, reference),
        Constant::Other => Ok(None),
    }
}

#[tactic(auto, unfolding(crate::specs::Declarations::constant_meant))]
fn constant_added(
    alloc: Global,
    scope: &Scope,
    room: usize,
    written: &WrittenType,
    constant: Constant,
) -> Result<(Added, usize), Refusal>
    ensures exact { Gives (λ x. (addition_of x.0, x.1)) result (constant_meant (env scope.now) (type_model written.now) constant room) }
    ensures memory { IfNoMemory result (ResolvedTypeWants (env scope.now) (type_model written.now)) }
{
    let (_named, left) = whole_type(alloc, scope, room, written)?;
    let value = constant_value(scope, constant)?;
    Ok((Added::Meaning(Meaning::Constant(value)), left))
}

/// What is added, if its number is not taken.
fn numbered_once(
    scope: &Scope,
    is_taken: bool,
    added: Added,
    room: usize,
) -> Result<(Added, usize), Refusal>
    ensures { Finds (λ x. (addition_of x.0, x.1)) result (numbered_once_of (env scope.now) is_taken (addition_of added) room) }
{
    if is_taken {
        return Err(wrong(scope.own, NameReason::DoubledNumber));
    }
    Ok((added, room))
}

#[tactic(auto, unfolding(crate::specs::Declarations::procedure_meant))]
fn procedure_added(
    alloc: Global,
    scope: &Scope,
    procedures: &[Procedure],
    arguments: &[Group<u32>],
    results: &[Group<u32>],
    number: u16,
    room: usize,
) -> Result<(Added, usize), Refusal>
    ensures exact { Gives (λ x. (addition_of x.0, x.1)) result (procedure_meant (env scope.now) (map resolved_procedure procedures.now) (field_models arguments.now) (field_models results.now) number room) }
    ensures memory { IfNoMemory result (IsOk (spent (env scope.now) room 1)) }
{
    let (arguments, left) = whole_fields(alloc, scope, room, arguments)?;
    let (results, left) = whole_fields(alloc, scope, left, results)?;
    let name = Vec::from_slice(alloc, text(scope.names, scope.own))?;
    let procedure = Procedure {
        name,
        number,
        arguments,
        results,
    };
    let is_taken = procedure_of(procedures, number).is_some();
    numbered_once(scope, is_taken, Added::Procedure(procedure), left)
}

#[tactic(auto, unfolding(crate::specs::Declarations::error_meant))]
fn error_added(
    alloc: Global,
    scope: &Scope,
    errors: &[RemoteError],
    arguments: &[Group<u32>],
    number: u16,
    room: usize,
) -> Result<(Added, usize), Refusal>
    ensures exact { Gives (λ x. (addition_of x.0, x.1)) result (error_meant (env scope.now) (map resolved_error errors.now) (field_models arguments.now) number room) }
    ensures memory { IfNoMemory result (IsOk (spent (env scope.now) room 1)) }
{
    let (arguments, left) = whole_fields(alloc, scope, room, arguments)?;
    let name = Vec::from_slice(alloc, text(scope.names, scope.own))?;
    let error = RemoteError {
        name,
        number,
        arguments,
    };
    let is_taken = error_of(errors, number).is_some();
    numbered_once(scope, is_taken, Added::Error(error), left)
}

/// What a declaration adds to the program.
#[tactic(auto, unfolding(crate::specs::Declarations::declaration_meant))]
fn added_by(
    alloc: Global,
    scope: &Scope,
    program: &Program,
    declared: &Declared,
    room: usize,
) -> Result<(Added, usize), Refusal>
    ensures exact { Gives (λ x. (addition_of x.0, x.1)) result (declaration_meant (env scope.now) (resolved_model program.now) (declared_view declared.now) room) }
    ensures memory { IfNoMemory result (AddedWants (env scope.now) (declared_view declared.now) room) }
{
    match declared {
        Declared::Type(written) => type_added(alloc, scope, room, written),
        Declared::Constant(written, constant) => constant_added(
            alloc, scope, room, written, *constant,
        ),
        Declared::Procedure {
            arguments,
            results,
            errors: _,
            number,
        } => procedure_added(
            alloc,
            scope,
            &program.procedures,
            arguments,
            results,
            *number,
            room,
        ),
        Declared::Error { arguments, number } => {
            error_added(alloc, scope, &program.errors, arguments, *number, room)
        }
    }
}

/// Adds to the program what was declared.
fn add(program: &mut Program, name: Vec<u8>, added: Added) -> Result<(), AllocError>
    ensures exact { OnOk result (resolved_model program.new ≡ with_addition (resolved_model program.old) name.items (addition_of added)) }
    ensures memory { OnErr result (AddingWants program.old added) }
{
    match added {
        Added::Meaning(meaning) => {
            program.meanings.push((name, meaning))?;
            Ok(())
        }
        Added::Procedure(procedure) => {
            program.procedures.push(procedure)?;
            program.meanings.push((name, Meaning::Procedure))?;
            Ok(())
        }
        Added::Error(error) => {
            program.errors.push(error)?;
            program.meanings.push((name, Meaning::Error))?;
            Ok(())
        }
    }
}

fn is_type(declared: &Declared) -> bool
    ensures { result ≡ is_type_of (declared_view declared.now) }
{
    match declared {
        Declared::Type(_) => true,
        _ => false,
    }
}

/// What the declaration adds, if its name differs from those before.
fn named_once(
    alloc: Global,
    scope: &Scope,
    program: &Program,
    declaration: &Declaration,
    room: usize,
) -> Result<(Added, usize), Refusal>
    ensures exact { Gives (λ x. (addition_of x.0, x.1)) result (once_meant (env scope.now) (resolved_model program.now) (declaration_view declaration.now) room) }
    ensures memory { IfNoMemory result (is_some (meaning_in (resolved_model program.now).meanings (name_text (names_seen scope.now.names.now) declaration.now.name)) ≡ false) }
{
    match meaning_of(&program.meanings, text(scope.names, declaration.name)) {
        Some(_) => Err(wrong(declaration.name, NameReason::DoubledName)),
        None => added_by(alloc, scope, program, &declaration.declared, room),
    }
}

/// Adds a declaration to the program, and returns what is left of the room for parts.
#[tactic(auto, unfolding(crate::specs::Declarations::declaration_step))]
pub(crate) fn take_declaration(
    alloc: Global,
    names: &[Vec<u8>],
    before: &[Program],
    dependencies: &[Dependency],
    program: &mut Program,
    declaration: &Declaration,
    room: usize,
) -> Result<usize, Refusal>
    ensures exact { Gives (λ left. (resolved_model program.new, left)) result (declaration_step (names_seen names.now) before.now dependencies.now (resolved_model program.old, room) (declaration_view declaration.now)) }
    ensures memory { IfNoMemory result (is_some (meaning_in (resolved_model program.old).meanings (name_text (names_seen names.now) declaration.now.name)) ≡ false) }
{
    let scope = Scope {
        names,
        before,
        dependencies,
        meanings: &program.meanings,
        own: declaration.name,
        is_type: is_type(&declaration.declared),
    };
    let (added, left) = named_once(alloc, &scope, program, declaration, room)?;
    let name = Vec::from_slice(alloc, text(names, declaration.name))?;
    add(program, name, added)?;
    Ok(left)
}
