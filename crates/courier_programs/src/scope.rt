//! What names refer to.

ghost use Rattle.std.specs.Prelude.{◌≡◌, IfNone, IfSome, None, Some, option_map};
ghost use Rattle.courier_notation.specs.Failing.{Finds};
ghost use Rattle.courier_texts.specs.Named.{named_model};
ghost use Rattle.courier_programs.specs.Meanings.{meaning_model, meaning_of as meaning_in, meanings_seen};
ghost use Rattle.courier_programs.specs.Scopes.{dependency_of as dependency_in, env, is_itself as is_itself_of, last_name as last_name_of};
ghost use Rattle.courier_programs.specs.Scopes.{look_up as look_up_of, names_seen, program_named, spent, type_named as type_named_of};
ghost use Rattle.courier_programs.specs.Scopes.{value_named as value_named_of, word_by, word_of as word_of_numeric};

use crate::bytes::{is_same, text};
use crate::finding::program_of;
use crate::name_reason::NameReason;
use crate::program::{Meaning, Program};
use crate::refusal::{Refusal, wrong};
use courier_notation::{Dependency, Numeric, Reference};
use courier_texts::Named;

/// What a declaration may refer to.
#[derive(Clone, Copy)]
pub struct Scope<'a> {
    /// The names of the text.
    pub names: &'a [Vec<u8>],
    /// The programs that were read before.
    pub before: &'a [Program],
    /// The programs that this one depends upon.
    pub dependencies: &'a [Dependency],
    /// What was declared before in this program.
    pub meanings: &'a [(Vec<u8>, Meaning)],
    /// The name that is declared.
    pub own: u32,
    /// Whether a type is declared.
    pub is_type: bool,
}

/// What the name stands for.
pub(crate) fn meaning_of<'a>(meanings: &'a [(Vec<u8>, Meaning)], name: &[u8]) -> Option<&'a Meaning>
    ensures some { IfSome result (λ m. meaning_in (meanings_seen meanings.now) name.now ≡ Some (meaning_model m.now)) }
    ensures none { IfNone result (meaning_in (meanings_seen meanings.now) name.now ≡ None) }
{
    for meaning in meanings {
        if is_same(&meaning.0, name) {
            return Some(&meaning.1);
        }
    }
    None
}

/// The dependency of that name.
pub(crate) fn dependency_of(
    names: &[Vec<u8>],
    dependencies: &[Dependency],
    name: u32,
) -> Option<Dependency>
    ensures { result ≡ dependency_in (names_seen names.now) dependencies.now name }
{
    for dependency in dependencies {
        if is_same(text(names, dependency.name), text(names, name)) {
            return Some(*dependency);
        }
    }
    None
}

/// The name at which a reference is wrong.
pub(crate) fn last_name(reference: Reference) -> u32
    ensures { result ≡ last_name_of reference }
{
    match reference {
        Reference::Own(name) | Reference::Other(_, name) => name,
    }
}

/// The program that is depended upon by that name.
#[tactic(auto, unfolding(crate::specs::Scopes::program_named))]
fn named_program<'a>(scope: &Scope<'a>, name: u32) -> Result<&'a Program, Refusal>
    ensures { Finds (λ p. p.now) result (program_named (env scope.now) name) }
{
    match dependency_of(scope.names, scope.dependencies, name) {
        Some(dependency) => match program_of(scope.before, dependency.number, dependency.version) {
            Some(program) => Ok(program),
            None => Err(wrong(name, NameReason::UnknownProgram)),
        },
        None => Err(wrong(name, NameReason::UnknownProgram)),
    }
}

/// What is referred to. `None` if no such name was declared before.
#[tactic(auto, unfolding(crate::specs::Scopes::look_up))]
pub(crate) fn look_up<'a>(
    scope: &Scope<'a>,
    reference: Reference,
) -> Result<Option<&'a Meaning>, Refusal>
    ensures { Finds (λ m. option_map (λ x. meaning_model x.now) m) result (look_up_of (env scope.now) reference) }
{
    match reference {
        Reference::Own(name) => Ok(meaning_of(scope.meanings, text(scope.names, name))),
        Reference::Other(program, name) => {
            let found = named_program(scope, program)?;
            Ok(meaning_of(&found.meanings, text(scope.names, name)))
        }
    }
}

/// Whether a type's declaration refers to itself.
fn is_itself(scope: &Scope, reference: Reference) -> bool
    ensures { result ≡ is_itself_of (env scope.now) reference }
{
    match reference {
        Reference::Own(name) => {
            scope.is_type && is_same(text(scope.names, name), text(scope.names, scope.own))
        }
        Reference::Other(_, _) => false,
    }
}

/// The type that is referred to, and its size.
#[tactic(auto, unfolding(crate::specs::Scopes::type_named))]
pub(crate) fn type_named<'a>(
    scope: &Scope<'a>,
    reference: Reference,
) -> Result<(&'a Named, usize), Refusal>
    ensures { Finds (λ x. (named_model x.0.now, x.1)) result (type_named_of (env scope.now) reference) }
{
    match look_up(scope, reference)? {
        Some(Meaning::Type { named, size }) => Ok((named, *size)),
        Some(Meaning::Recursive) => Err(wrong(last_name(reference), NameReason::Recursive)),
        Some(_) => Err(wrong(last_name(reference), NameReason::UnknownName)),
        None => {
            if is_itself(scope, reference) {
                return Err(wrong(last_name(reference), NameReason::Recursive));
            }
            Err(wrong(last_name(reference), NameReason::UnknownName))
        }
    }
}

/// The value of the constant that is referred to. `None` if it is no number.
#[tactic(auto, unfolding(crate::specs::Scopes::value_named))]
pub(crate) fn value_named(scope: &Scope, reference: Reference) -> Result<Option<u32>, Refusal>
    ensures { Finds (λ x. x) result (value_named_of (env scope.now) reference) }
{
    match look_up(scope, reference)? {
        Some(Meaning::Constant(value)) => Ok(*value),
        _ => Err(wrong(last_name(reference), NameReason::UnknownName)),
    }
}

/// The value, if it is a number of one word.
fn word_by_value(reference: Reference, value: Option<u32>) -> Result<u16, Refusal>
    ensures { Finds (λ x. x) result (word_by reference value) }
{
    match value {
        Some(number) => {
            if number < 65_536 {
                Ok(number as u16)
            } else {
                Err(wrong(last_name(reference), NameReason::NotNumber))
            }
        }
        None => Err(wrong(last_name(reference), NameReason::NotNumber)),
    }
}

/// A number of one word.
#[tactic(auto, unfolding(crate::specs::Scopes::word_of))]
pub(crate) fn word_of(scope: &Scope, numeric: Numeric) -> Result<u16, Refusal>
    ensures { Finds (λ x. x) result (word_of_numeric (env scope.now) numeric) }
{
    match numeric {
        Numeric::Number(number) => Ok(number),
        Numeric::Constant(reference) => {
            let value = value_named(scope, reference)?;
            word_by_value(reference, value)
        }
    }
}

/// What is left of the room for parts, after so many.
pub(crate) fn spend(scope: &Scope, room: usize, count: usize) -> Result<usize, Refusal>
    ensures { Finds (λ x. x) result (spent (env scope.now) room count) }
{
    if room < count {
        return Err(wrong(scope.own, NameReason::TooLarge));
    }
    Ok(room - count)
}
