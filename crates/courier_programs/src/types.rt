//! What types that are written stand for.

ghost use Rattle.std.specs.Prelude.{◌≡◌, ◌⊎◌, ◌<◌, [], IsOk, length, option_map};
ghost use Rattle.courier_notation.specs.Failing.{Finds, Gives, IfNoMemory, over};
ghost use Rattle.courier_notation.specs.Written.{candidate_models, candidates_from, field_models, fields_from, type_model};
ghost use Rattle.courier_texts.specs.Named.{members_seen, named_model};
ghost use Rattle.courier_programs.specs.Meanings.{components_seen};
ghost use Rattle.courier_programs.specs.Memory.{ResolvedTypeWants, StandsForType};
ghost use Rattle.courier_programs.specs.Faults.{steps};
ghost use Rattle.courier_programs.specs.Scopes.{env, spent, type_named as type_named_of, word_of as word_of_numeric};
ghost use Rattle.courier_programs.specs.Types.{array_meant, candidate_step, candidates_meant, candidates_seen, choice_meant, component_step};
ghost use Rattle.courier_programs.specs.Types.{components_meant, enumeration_meant, fields_meant, maximum_of as maximum_in, named_part as named_part_of};
ghost use Rattle.courier_programs.specs.Types.{referred as referred_in, sequence_meant, tag_members as tag_members_of, type_level_meant, type_meant};

use crate::bytes::text;
use crate::copying::copy_of;
use crate::distinct::all_once;
use crate::members::{chosen_of, members_of, tag_members};
use crate::name_reason::NameReason;
use crate::parts::{Candidate, Component, Member};
use crate::refusal::{Refusal, wrong};
use crate::scope::{Scope, spend, type_named, word_of};
use courier_notation::{Designator, Group, Numeric, Reference, WrittenType};
use courier_texts::Named;
use std::alloc::Global;

/// What types are made with.
#[derive(Clone, Copy)]
pub struct Maker<'a> {
    pub alloc: Global,
    /// What the types may refer to.
    pub scope: &'a Scope<'a>,
}

/// The maximum of a sequence, which is 65,535 where none is written.
fn maximum_of(scope: &Scope, most: Option<Numeric>) -> Result<u16, Refusal>
    ensures { Finds (λ x. x) result (maximum_in (env scope.now) most) }
{
    match most {
        Some(numeric) => word_of(scope, numeric),
        None => Ok(65_535),
    }
}

#[tactic(auto, unfolding(crate::specs::Types::enumeration_meant))]
fn enumeration(
    maker: Maker,
    members: &[(u32, Numeric)],
    room: usize,
) -> Result<(Named, usize), Refusal>
    ensures exact { Gives (λ x. (named_model x.0, x.1)) result (enumeration_meant (env maker.entry.scope.now) members.now room) }
    ensures memory { IfNoMemory result (0 < length members.now) }
{
    let (listed, left) = members_of(maker.alloc, maker.scope, room, members)?;
    Ok((Named::Enumeration(listed), left))
}

/// What is referred to.
#[tactic(auto, unfolding(crate::specs::Types::referred))]
fn referred(maker: Maker, reference: Reference, room: usize) -> Result<(Named, usize), Refusal>
    ensures exact { Gives (λ x. (named_model x.0, x.1)) result (referred_in (env maker.entry.scope.now) reference room) }
    ensures memory { IfNoMemory result (IsOk (type_named_of (env maker.entry.scope.now) reference)) }
{
    let (named, size) = type_named(maker.scope, reference)?;
    let left = spend(maker.scope, room, size.saturating_sub(1))?;
    let copy = copy_of(maker.alloc, named)?;
    Ok((copy, left))
}

/// The element of an array or a sequence, and what is left of the room for parts.
#[cycle(types)]
fn element_of(
    maker: Maker,
    depth: usize,
    written: &WrittenType,
    room: usize,
) -> Result<(Box<Named>, usize), Refusal>
    ensures exact { Gives (λ x. (named_model x.0.value, x.1)) result (type_meant (env maker.entry.scope.now) depth (type_model written.now) room) }
    ensures memory { IfNoMemory result (ResolvedTypeWants (env maker.entry.scope.now) (type_model written.now) ⊎ StandsForType (env maker.entry.scope.now) (type_model written.now)) }
{
    let (part, left) = type_of(maker, depth, written, room)?;
    Ok((Box::new(maker.alloc, part)?, left))
}

/// The name and the type of a component or a candidate, and what is left of the room for parts.
#[cycle(types)]
#[tactic(auto, unfolding(crate::specs::Types::named_part))]
fn named_part(
    maker: Maker,
    depth: usize,
    written: &WrittenType,
    room: usize,
    name: u32,
) -> Result<(Component, usize), Refusal>
    ensures exact { Gives (λ x. ((x.0.0.items, named_model x.0.1), x.1)) result (named_part_of (env maker.entry.scope.now) (type_meant (env maker.entry.scope.now) depth (type_model written.now)) room name) }
    ensures memory { IfNoMemory result (IsOk (spent (env maker.entry.scope.now) room 1)) }
{
    let left = spend(maker.scope, room, 1)?;
    let (part, left) = type_of(maker, depth, written, left)?;
    let name = Vec::from_slice(maker.alloc, text(maker.scope.names, name))?;
    Ok(((name, part), left))
}

/// Puts components of one type behind the others.
#[cycle(types)]
#[tactic(auto, unfolding(crate::specs::Types::component_step))]
fn take_components(
    maker: Maker,
    depth: usize,
    written: &WrittenType,
    room: usize,
    parts: &mut Vec<Component>,
    names: &[u32],
) -> Result<usize, Refusal>
    ensures exact { Gives (λ left. (components_seen parts.new.items, left)) result (steps (component_step (env maker.entry.scope.now) (type_meant (env maker.entry.scope.now) depth (type_model written.now))) (components_seen parts.old.items, room) names.now) }
    ensures memory { IfNoMemory result (0 < length names.now) }
{
    let mut left = room;
    for name in names {
        let (part, after) = named_part(maker, depth, written, left, *name)?;
        parts.push(part)?;
        left = after;
    }
    Ok(left)
}

/// The components of a record, and what is left of the room for parts.
#[cycle(types)]
#[tactic(auto, unfolding(crate::specs::Types::components_meant))]
pub(crate) fn components_of(
    maker: Maker,
    depth: usize,
    groups: &[Group<u32>],
    room: usize,
) -> Result<(Vec<Component>, usize), Refusal>
    ensures exact { Gives (λ x. (components_seen x.0.items, x.1)) result (components_meant (env maker.entry.scope.now) (type_meant (env maker.entry.scope.now) depth) [] ([], room) (fields_from (field_models groups.now))) }
    ensures memory { IfNoMemory result (0 < length groups.now) }
{
    let mut seen = Vec::new(maker.alloc);
    let mut parts = Vec::new(maker.alloc);
    let mut left = room;
    for group in groups {
        all_once(maker.scope, &mut seen, &group.0)?;
        left = take_components(maker, depth, &group.1, left, &mut parts, &group.0)?;
    }
    Ok((parts, left))
}

#[cycle(types)]
#[tactic(auto, unfolding(crate::specs::Types::fields_meant))]
fn record_of(
    maker: Maker,
    depth: usize,
    groups: &[Group<u32>],
    room: usize,
) -> Result<(Named, usize), Refusal>
    ensures exact { Gives (λ x. (named_model x.0, x.1)) result (fields_meant (components_meant (env maker.entry.scope.now) (type_meant (env maker.entry.scope.now) depth) [] ([], room) (fields_from (field_models groups.now)))) }
    ensures memory { IfNoMemory result (0 < length groups.now) }
{
    let (parts, left) = components_of(maker, depth, groups, room)?;
    Ok((Named::Record(parts), left))
}

/// Puts candidates of one type behind the others.
#[cycle(types)]
#[tactic(auto, unfolding(crate::specs::Types::candidate_step))]
fn take_candidates(
    maker: Maker,
    depth: usize,
    written: &WrittenType,
    room: usize,
    parts: &mut Vec<Candidate>,
    chosen: &[(u32, u16)],
) -> Result<usize, Refusal>
    ensures exact { Gives (λ left. (candidates_seen parts.new.items, left)) result (steps (candidate_step (env maker.entry.scope.now) (type_meant (env maker.entry.scope.now) depth (type_model written.now))) (candidates_seen parts.old.items, room) chosen.now) }
    ensures memory { IfNoMemory result (0 < length chosen.now) }
{
    let mut left = room;
    for designator in chosen {
        let ((name, part), after) = named_part(maker, depth, written, left, designator.0)?;
        parts.push((name, (designator.1, part)))?;
        left = after;
    }
    Ok(left)
}

/// The candidates of a choice, and what is left of the room for parts.
#[cycle(types)]
#[tactic(auto, unfolding(crate::specs::Types::candidates_meant, crate::specs::Types::candidate_group))]
fn candidates_of(
    maker: Maker,
    depth: usize,
    groups: &[Group<Designator>],
    tag: Option<&[Member]>,
    room: usize,
) -> Result<(Vec<Candidate>, usize), Refusal>
    ensures exact { Gives (λ x. (candidates_seen x.0.items, x.1)) result (candidates_meant (env maker.entry.scope.now) (option_map (λ m. members_seen m.now) tag.entry) (type_meant (env maker.entry.scope.now) depth) [] ([], room) (candidates_from (candidate_models groups.now))) }
    ensures memory { IfNoMemory result (0 < length groups.now) }
{
    let mut taken = Vec::new(maker.alloc);
    let mut parts = Vec::new(maker.alloc);
    let mut left = room;
    for group in groups {
        let chosen = chosen_of(maker.alloc, maker.scope, tag, &mut taken, &group.0)?;
        left = take_candidates(maker, depth, &group.1, left, &mut parts, &chosen)?;
    }
    Ok((parts, left))
}

#[cycle(types)]
#[tactic(auto, unfolding(crate::specs::Types::choice_meant))]
fn choice_of(
    maker: Maker,
    depth: usize,
    groups: &[Group<Designator>],
    tag: Option<Reference>,
    room: usize,
) -> Result<(Named, usize), Refusal>
    ensures exact { Gives (λ x. (named_model x.0, x.1)) result (choice_meant (env maker.entry.scope.now) tag (λ members. candidates_meant (env maker.entry.scope.now) members (type_meant (env maker.entry.scope.now) depth) [] ([], room) (candidates_from (candidate_models groups.now)))) }
    ensures memory { IfNoMemory result (IsOk (tag_members_of (env maker.entry.scope.now) tag)) }
{
    let members = tag_members(maker.scope, tag)?;
    let (parts, left) = candidates_of(maker, depth, groups, members, room)?;
    Ok((Named::Choice(parts), left))
}

/// A type, whose parts stand at most so deep.
#[cycle(types)]
#[tactic(auto, unfolding(crate::specs::Types::type_level_meant, crate::specs::Types::array_meant, crate::specs::Types::sequence_meant))]
fn type_by(
    maker: Maker,
    depth: usize,
    written: &WrittenType,
    room: usize,
) -> Result<(Named, usize), Refusal>
    ensures exact { Gives (λ x. (named_model x.0, x.1)) result (type_level_meant (env maker.entry.scope.now) (type_meant (env maker.entry.scope.now) depth) (type_model written.now) room) }
    ensures memory { IfNoMemory result (ResolvedTypeWants (env maker.entry.scope.now) (type_model written.now)) }
{
    match written {
        WrittenType::Predefined(predefined) => Ok((Named::Predefined(*predefined), room)),
        WrittenType::Enumeration(members) => enumeration(maker, members, room),
        WrittenType::Array(count, element) => {
            let count = word_of(maker.scope, *count)?;
            let (part, left) = element_of(maker, depth, element, room)?;
            Ok((Named::Array(count, part), left))
        }
        WrittenType::Sequence(most, element) => {
            let most = maximum_of(maker.scope, *most)?;
            let (part, left) = element_of(maker, depth, element, room)?;
            Ok((Named::Sequence(most, part), left))
        }
        WrittenType::Record(groups) => record_of(maker, depth, groups, room),
        WrittenType::Choice(tag, groups) => choice_of(maker, depth, groups, *tag, room),
        WrittenType::Named(reference) => referred(maker, *reference, room),
    }
}

/// What the type stands for, and what is left of the room for parts. Types stand in one another at most so
/// deep.
#[cycle(types)]
#[tactic(auto, unfolding(crate::specs::Types::type_meant))]
pub(crate) fn type_of(
    maker: Maker,
    depth: usize,
    written: &WrittenType,
    room: usize,
) -> Result<(Named, usize), Refusal>
    ensures exact { Gives (λ x. (named_model x.0, x.1)) result (type_meant (env maker.entry.scope.now) depth (type_model written.now) room) }
    ensures memory { IfNoMemory result (ResolvedTypeWants (env maker.entry.scope.now) (type_model written.now)) }
{
    if depth == 0 {
        return Err(wrong(maker.scope.own, NameReason::TooDeep));
    }
    let left = spend(maker.scope, room, 1)?;
    type_by(maker, depth - 1, written, left)
}
