//! The shapes of types with names.
ghost use Rattle.std.specs.Prelude.{◌≡◌, ◌<◌, IfOk, OnErr, length, map};
ghost use Rattle.courier_types.specs.Shape.{ShapeModel, member_models, shape_model, shape_models};
ghost use Rattle.courier_texts.specs.Named.{HasParts, component_models, members_of, named_model, shape_of as shape_of_named, shapes_of, variant_models};

use crate::named::Named;
use courier_types::Shape;
use std::alloc::{AllocError, Global};

/// The words of the members.
fn words_of(alloc: Global, members: &[(Vec<u8>, u16)]) -> Result<Vec<u16>, AllocError>
    ensures words { IfOk result (λ words. words.items ≡ map (λ m. m.1) members.now) }
    ensures memory { OnErr result (0 < length members.now) }
{
    let mut words = Vec::new(alloc);
    for member in members {
        words.push(member.1)?;
    }
    Ok(words)
}

/// The shapes of components, in their order.
#[cycle(shapes)]
fn shapes_of_components(
    alloc: Global,
    components: &[(Vec<u8>, Named)],
) -> Result<Vec<Shape>, AllocError>
    ensures shapes { IfOk result (λ shapes. shape_models shapes.items ≡ shapes_of (component_models components.now)) }
    ensures memory { OnErr result (0 < length components.now) }
{
    let mut shapes = Vec::new(alloc);
    for component in components {
        shapes.push(shape_of(alloc, &component.1)?)?;
    }
    Ok(shapes)
}

/// The designators of candidates with the shapes of their values, in their order.
#[cycle(shapes)]
fn members_of_variants(
    alloc: Global,
    variants: &[(Vec<u8>, (u16, Named))],
) -> Result<Vec<(u16, Shape)>, AllocError>
    ensures members { IfOk result (λ members. member_models members.items ≡ members_of (variant_models variants.now)) }
    ensures memory { OnErr result (0 < length variants.now) }
{
    let mut members = Vec::new(alloc);
    for variant in variants {
        members.push((variant.1.0, shape_of(alloc, &variant.1.1)?))?;
    }
    Ok(members)
}

/// The shape of a record of these components. The only error is want of memory, where there are components.
#[cycle(shapes)]
pub fn shape_of_record(alloc: Global, components: &[(Vec<u8>, Named)]) -> Result<Shape, AllocError>
    ensures shape { IfOk result (λ shape. shape_model shape ≡ ShapeModel.fields (shapes_of (component_models components.now))) }
    ensures memory { OnErr result (0 < length components.now) }
{
    Ok(Shape::Fields(shapes_of_components(alloc, components)?))
}

/// The shape of a type: what is left of it without names. The only error is want of memory, of an enumeration,
/// a record or a choice that has parts, an array or a sequence.
#[cycle(shapes)]
pub fn shape_of(alloc: Global, named: &Named) -> Result<Shape, AllocError>
    ensures shape { IfOk result (λ shape. shape_model shape ≡ shape_of_named (named_model named.now)) }
    ensures memory { OnErr result (HasParts (named_model named.now)) }
{
    match named {
        Named::Predefined(predefined) => Ok(predefined.shape()),
        Named::Enumeration(members) => Ok(Shape::Enumeration(words_of(alloc, members)?)),
        Named::Array(count, element) => {
            let shape = shape_of(alloc, element)?;
            Ok(Shape::Array(*count, Box::new(alloc, shape)?))
        }
        Named::Sequence(most, element) => {
            let shape = shape_of(alloc, element)?;
            Ok(Shape::Sequence(*most, Box::new(alloc, shape)?))
        }
        Named::Record(components) => shape_of_record(alloc, components),
        Named::Choice(variants) => Ok(Shape::Choice(members_of_variants(alloc, variants)?)),
    }
}
