//! Copies of types.

ghost use Rattle.std.specs.Prelude.{◌≡◌, ◌<◌, IfOk, OnErr, length};
ghost use Rattle.courier_texts.specs.Named.{HasParts, members_seen, named_model};
ghost use Rattle.courier_programs.specs.Meanings.{components_seen};
ghost use Rattle.courier_programs.specs.Types.{candidates_seen};

use crate::parts::{Candidate, Component, Member};
use courier_texts::Named;
use std::alloc::{AllocError, Global};

fn copy_members(alloc: Global, members: &[Member]) -> Result<Vec<Member>, AllocError>
    ensures copy { IfOk result (λ copies. members_seen copies.items ≡ members_seen members.now) }
    ensures memory { OnErr result (0 < length members.now) }
{
    let mut copies = Vec::new(alloc);
    for member in members {
        copies.push((Vec::from_slice(alloc, &member.0)?, member.1))?;
    }
    Ok(copies)
}

/// A name and a type, as a component has them, and a candidate beside its designator.
#[cycle(copying)]
fn copy_part(alloc: Global, name: &[u8], part: &Named) -> Result<Component, AllocError>
    ensures { IfOk result (λ copy. (copy.0.items ≡ name.now) × (named_model copy.1 ≡ named_model part.now)) }
{
    let name = Vec::from_slice(alloc, name)?;
    let part = copy_of(alloc, part)?;
    Ok((name, part))
}

#[cycle(copying)]
fn copy_components(alloc: Global, components: &[Component]) -> Result<Vec<Component>, AllocError>
    ensures copy { IfOk result (λ copies. components_seen copies.items ≡ components_seen components.now) }
    ensures memory { OnErr result (0 < length components.now) }
{
    let mut copies = Vec::new(alloc);
    for component in components {
        copies.push(copy_part(alloc, &component.0, &component.1)?)?;
    }
    Ok(copies)
}

#[cycle(copying)]
fn copy_variants(alloc: Global, variants: &[Candidate]) -> Result<Vec<Candidate>, AllocError>
    ensures copy { IfOk result (λ copies. candidates_seen copies.items ≡ candidates_seen variants.now) }
    ensures memory { OnErr result (0 < length variants.now) }
{
    let mut copies = Vec::new(alloc);
    for variant in variants {
        let (name, part) = copy_part(alloc, &variant.0, &variant.1.1)?;
        copies.push((name, (variant.1.0, part)))?;
    }
    Ok(copies)
}

/// A copy of the type. The only error is want of memory, where it has parts.
#[cycle(copying)]
pub(crate) fn copy_of(alloc: Global, named: &Named) -> Result<Named, AllocError>
    ensures copy { IfOk result (λ copy. named_model copy ≡ named_model named.now) }
    ensures memory { OnErr result (HasParts (named_model named.now)) }
{
    match named {
        Named::Predefined(predefined) => Ok(Named::Predefined(*predefined)),
        Named::Enumeration(members) => Ok(Named::Enumeration(copy_members(alloc, members)?)),
        Named::Array(count, element) => {
            let copy = copy_of(alloc, element)?;
            Ok(Named::Array(*count, Box::new(alloc, copy)?))
        }
        Named::Sequence(most, element) => {
            let copy = copy_of(alloc, element)?;
            Ok(Named::Sequence(*most, Box::new(alloc, copy)?))
        }
        Named::Record(components) => Ok(Named::Record(copy_components(alloc, components)?)),
        Named::Choice(variants) => Ok(Named::Choice(copy_variants(alloc, variants)?)),
    }
}
