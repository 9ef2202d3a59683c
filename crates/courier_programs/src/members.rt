//! Members of enumerations, and designators of choices.

ghost use Rattle.std.specs.Prelude.{◌≡◌, ◌<◌, [], IsOk, length, option_map};
ghost use Rattle.courier_notation.specs.Failing.{Finds, Gives, IfNoMemory};
ghost use Rattle.courier_texts.specs.Named.{members_seen};
ghost use Rattle.courier_programs.specs.Faults.{steps};
ghost use Rattle.courier_programs.specs.Scopes.{env};
ghost use Rattle.courier_programs.specs.Types.{agreed, chosen_word as chosen_word_of, designator_step, designator_word as designator_word_of};
ghost use Rattle.courier_programs.specs.Types.{given_alone, given_word as given_word_of, lists_word as lists_word_in, member_step};
ghost use Rattle.courier_programs.specs.Types.{member_word as member_word_of, new_name as new_name_in, new_word as new_word_in, tag_members as tag_members_of};
ghost use Rattle.courier_programs.specs.Types.{word_by_name as word_by_name_in};

use crate::bytes::{is_same, text};
use crate::name_reason::NameReason;
use crate::parts::Member;
use crate::refusal::{Refusal, wrong};
use crate::scope::{Scope, last_name, spend, type_named, word_of};
use courier_notation::{Designator, Numeric, Reference};
use courier_texts::Named;
use std::alloc::Global;

/// The word of the member of that name.
fn word_by_name(members: &[Member], name: &[u8]) -> Option<u16>
    ensures { result ≡ word_by_name_in (members_seen members.now) name.now }
{
    for member in members {
        if is_same(&member.0, name) {
            return Some(member.1);
        }
    }
    None
}

fn lists_word(members: &[Member], word: u16) -> bool
    ensures { result ≡ lists_word_in (members_seen members.now) word }
{
    for member in members {
        if member.1 == word {
            return true;
        }
    }
    false
}

/// No member before has that name.
fn new_name(scope: &Scope, members: &[Member], name: u32) -> Result<(), Refusal>
    ensures { Finds (λ _. tt) result (new_name_in (env scope.now) (members_seen members.now) name) }
{
    match word_by_name(members, text(scope.names, name)) {
        Some(_) => Err(wrong(name, NameReason::DoubledName)),
        None => Ok(()),
    }
}

/// The word, if no member before has it.
fn new_word(members: &[Member], name: u32, word: u16) -> Result<u16, Refusal>
    ensures { Finds (λ x. x) result (new_word_in (members_seen members.now) name word) }
{
    if lists_word(members, word) {
        return Err(wrong(name, NameReason::DoubledWord));
    }
    Ok(word)
}

#[tactic(auto, unfolding(crate::specs::Types::member_word))]
fn member_word(scope: &Scope, members: &[Member], member: (u32, Numeric)) -> Result<u16, Refusal>
    ensures { Finds (λ x. x) result (member_word_of (env scope.now) (members_seen members.now) member) }
{
    new_name(scope, members, member.0)?;
    let word = word_of(scope, member.1)?;
    new_word(members, member.0, word)
}

#[tactic(auto, unfolding(crate::specs::Types::member_step))]
fn take_member(
    alloc: Global,
    scope: &Scope,
    room: usize,
    members: &mut Vec<Member>,
    member: (u32, Numeric),
) -> Result<usize, Refusal>
    ensures exact { Gives (λ left. (members_seen members.new.items, left)) result (member_step (env scope.now) (members_seen members.old.items, room) member) }
    ensures memory { IfNoMemory result (IsOk (member_step (env scope.now) (members_seen members.old.items, room) member)) }
{
    let left = spend(scope, room, 1)?;
    let word = member_word(scope, members, member)?;
    let name = Vec::from_slice(alloc, text(scope.names, member.0))?;
    members.push((name, word))?;
    Ok(left)
}

/// The members of an enumeration, and what is left of the room for parts.
pub(crate) fn members_of(
    alloc: Global,
    scope: &Scope,
    room: usize,
    written: &[(u32, Numeric)],
) -> Result<(Vec<Member>, usize), Refusal>
    ensures exact { Gives (λ x. (members_seen x.0.items, x.1)) result (steps (member_step (env scope.now)) ([], room) written.now) }
    ensures memory { IfNoMemory result (0 < length written.now) }
{
    let mut members = Vec::new(alloc);
    let mut left = room;
    for member in written {
        left = take_member(alloc, scope, left, &mut members, *member)?;
    }
    Ok((members, left))
}

/// The members of the enumeration that designators are of. `None` if no enumeration is named.
#[tactic(auto, unfolding(crate::specs::Types::tag_members))]
pub(crate) fn tag_members<'a>(
    scope: &Scope<'a>,
    tag: Option<Reference>,
) -> Result<Option<&'a [Member]>, Refusal>
    ensures { Finds (λ x. option_map (λ m. members_seen m.now) x) result (tag_members_of (env scope.now) tag) }
{
    match tag {
        Some(reference) => {
            let (named, _size) = type_named(scope, reference)?;
            match named {
                Named::Enumeration(members) => Ok(Some(members)),
                _ => Err(wrong(last_name(reference), NameReason::NotEnumeration)),
            }
        }
        None => Ok(None),
    }
}

/// The word that is written behind a designator. `None` if none is.
fn given_word(scope: &Scope, written: Option<Numeric>) -> Result<Option<u16>, Refusal>
    ensures { Finds (λ x. x) result (given_word_of (env scope.now) written) }
{
    match written {
        Some(numeric) => {
            let word = word_of(scope, numeric)?;
            Ok(Some(word))
        }
        None => Ok(None),
    }
}

/// The word of a member, if what is written behind the designator agrees with it.
fn agreed_word(name: u32, given: Option<u16>, word: u16) -> Result<u16, Refusal>
    ensures { Finds (λ x. x) result (agreed name given word) }
{
    match given {
        Some(number) => {
            if number == word {
                Ok(word)
            } else {
                Err(wrong(name, NameReason::OtherNumber))
            }
        }
        None => Ok(word),
    }
}

/// The word of a designator that is of no enumeration.
fn own_word(name: u32, given: Option<u16>) -> Result<u16, Refusal>
    ensures { Finds (λ x. x) result (given_alone name given) }
{
    match given {
        Some(word) => Ok(word),
        None => Err(wrong(name, NameReason::NoDesignator)),
    }
}

/// The word of a designator, with what is written behind it.
fn chosen_word(
    scope: &Scope,
    tag: Option<&[Member]>,
    name: u32,
    given: Option<u16>,
) -> Result<u16, Refusal>
    ensures { Finds (λ x. x) result (chosen_word_of (env scope.now) (option_map (λ m. members_seen m.now) tag.entry) name given) }
{
    match tag {
        Some(members) => match word_by_name(members, text(scope.names, name)) {
            Some(word) => agreed_word(name, given, word),
            None => Err(wrong(name, NameReason::UnknownName)),
        },
        None => own_word(name, given),
    }
}

#[tactic(auto, unfolding(crate::specs::Types::designator_word))]
fn designator_word(
    scope: &Scope,
    tag: Option<&[Member]>,
    taken: &[Member],
    designator: Designator,
) -> Result<u16, Refusal>
    ensures { Finds (λ x. x) result (designator_word_of (env scope.now) (option_map (λ m. members_seen m.now) tag.entry) (members_seen taken.now) designator) }
{
    new_name(scope, taken, designator.0)?;
    let given = given_word(scope, designator.1)?;
    let word = chosen_word(scope, tag, designator.0, given)?;
    new_word(taken, designator.0, word)
}

#[tactic(auto, unfolding(crate::specs::Types::designator_step))]
fn take_designator(
    alloc: Global,
    scope: &Scope,
    tag: Option<&[Member]>,
    taken: &mut Vec<Member>,
    chosen: &mut Vec<(u32, u16)>,
    designator: Designator,
) -> Result<(), Refusal>
    ensures exact { Gives (λ _. (members_seen taken.new.items, chosen.new.items)) result (designator_step (env scope.now) (option_map (λ m. members_seen m.now) tag.entry) (members_seen taken.old.items, chosen.old.items) designator) }
    ensures memory { IfNoMemory result (IsOk (designator_step (env scope.now) (option_map (λ m. members_seen m.now) tag.entry) (members_seen taken.old.items, chosen.old.items) designator)) }
{
    let word = designator_word(scope, tag, taken, designator)?;
    let name = Vec::from_slice(alloc, text(scope.names, designator.0))?;
    taken.push((name, word))?;
    chosen.push((designator.0, word))?;
    Ok(())
}

/// The designators that are written together, with their words. They are put behind those that were taken.
pub(crate) fn chosen_of(
    alloc: Global,
    scope: &Scope,
    tag: Option<&[Member]>,
    taken: &mut Vec<Member>,
    designators: &[Designator],
) -> Result<Vec<(u32, u16)>, Refusal>
    ensures exact { Gives (λ x. (members_seen taken.new.items, x.items)) result (steps (designator_step (env scope.now) (option_map (λ m. members_seen m.now) tag.entry)) (members_seen taken.old.items, []) designators.now) }
    ensures memory { IfNoMemory result (0 < length designators.now) }
{
    let mut chosen = Vec::new(alloc);
    for designator in designators {
        take_designator(alloc, scope, tag, taken, &mut chosen, *designator)?;
    }
    Ok(chosen)
}
