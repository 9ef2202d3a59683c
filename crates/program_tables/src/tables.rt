//! Programs as tables.

ghost use Rattle.std.specs.Prelude.{◌≡◌, ◌≢◌, ◌++◌, ◌∷◌, ◌<◌, [], IfOk, OnErr, OnOk, length, map};
ghost use Rattle.std.specs.List.{flat_map};
ghost use Rattle.courier_texts.specs.Named.{NamedModel, component_models, members_seen, named_model, variant_models};
ghost use Rattle.courier_programs.specs.Meanings.{resolved_error, fields_model, meaning_model, meanings_seen, resolved_procedure, resolved_model};
ghost use Rattle.program_tables.specs.Tables.{component_nodes, error_nodes, meaning_nodes, member_node, table_node, nodes_seen, procedure_nodes};
ghost use Rattle.program_tables.specs.Tables.{program_nodes, record_nodes, type_nodes, variant_nodes};
ghost use Rattle.program_tables.specs.declared.node.NodeKind.TheVariants as kinds;

use crate::node::{Node, NodeKind};
use courier_programs::{Fields, Meaning, Procedure, Program, RemoteError};
use courier_texts::Named;
use std::alloc::{AllocError, Global};

/// Appends a node.
fn append_node(
    alloc: Global,
    out: &mut Vec<Node>,
    kind: NodeKind,
    number: u32,
    parts: usize,
    name: &[u8],
) -> Result<(), AllocError>
    ensures { OnOk result (nodes_seen out.new.items ≡ nodes_seen out.old.items ++ table_node kind number parts name.now ∷ []) }
{
    let name = Vec::from_slice(alloc, name)?;
    out.push(Node {
        kind,
        number,
        parts,
        name,
    })?;
    Ok(())
}

fn append_members(
    alloc: Global,
    out: &mut Vec<Node>,
    members: &[(Vec<u8>, u16)],
) -> Result<(), AllocError>
    ensures nodes { OnOk result (nodes_seen out.new.items ≡ nodes_seen out.old.items ++ map member_node (members_seen members.now)) }
    ensures memory { OnErr result (0 < length members.now) }
{
    for member in members {
        append_node(
            alloc,
            out,
            NodeKind::Member,
            u32::from(member.1),
            0,
            &member.0,
        )?;
    }
    Ok(())
}

/// Appends the types of components, by their names.
#[cycle(nodes)]
#[tactic(auto, unfolding(crate::specs::Tables::component_nodes))]
fn append_components(
    alloc: Global,
    out: &mut Vec<Node>,
    components: &[(Vec<u8>, Named)],
) -> Result<(), AllocError>
    ensures nodes { OnOk result (nodes_seen out.new.items ≡ nodes_seen out.old.items ++ component_nodes (component_models components.now)) }
    ensures memory { OnErr result (0 < length components.now) }
{
    for component in components {
        append_type(alloc, out, &component.0, &component.1)?;
    }
    Ok(())
}

/// Appends a candidate and its type.
#[cycle(nodes)]
fn append_candidate(
    alloc: Global,
    out: &mut Vec<Node>,
    name: &[u8],
    designator: u16,
    part: &Named,
) -> Result<(), AllocError>
    ensures { OnOk result (nodes_seen out.new.items
        ≡ nodes_seen out.old.items ++ (table_node kinds.Candidate designator 1 name.now ∷ type_nodes [] (named_model part.now))) }
{
    append_node(
        alloc,
        out,
        NodeKind::Candidate,
        u32::from(designator),
        1,
        name,
    )?;
    append_type(alloc, out, &[], part)
}

#[cycle(nodes)]
#[tactic(auto, unfolding(crate::specs::Tables::variant_nodes))]
fn append_variants(
    alloc: Global,
    out: &mut Vec<Node>,
    variants: &[(Vec<u8>, (u16, Named))],
) -> Result<(), AllocError>
    ensures nodes { OnOk result (nodes_seen out.new.items ≡ nodes_seen out.old.items ++ variant_nodes (variant_models variants.now)) }
    ensures memory { OnErr result (0 < length variants.now) }
{
    for variant in variants {
        append_candidate(alloc, out, &variant.0, variant.1.0, &variant.1.1)?;
    }
    Ok(())
}

/// Appends a record by this name.
#[cycle(nodes)]
fn append_record(
    alloc: Global,
    out: &mut Vec<Node>,
    name: &[u8],
    components: &[(Vec<u8>, Named)],
) -> Result<(), AllocError>
    ensures { OnOk result (nodes_seen out.new.items
        ≡ nodes_seen out.old.items ++ type_nodes name.now (NamedModel.components (component_models components.now))) }
{
    append_node(alloc, out, NodeKind::Record, 0, components.len(), name)?;
    append_components(alloc, out, components)
}

#[cycle(nodes)]
fn append_choice(
    alloc: Global,
    out: &mut Vec<Node>,
    name: &[u8],
    variants: &[(Vec<u8>, (u16, Named))],
) -> Result<(), AllocError>
    ensures { OnOk result (nodes_seen out.new.items
        ≡ nodes_seen out.old.items ++ type_nodes name.now (NamedModel.choice (variant_models variants.now))) }
{
    append_node(alloc, out, NodeKind::Choice, 0, variants.len(), name)?;
    append_variants(alloc, out, variants)
}

/// Appends a type by this name, in front of its parts.
#[cycle(nodes)]
#[tactic(auto, unfolding(crate::specs::Tables::type_nodes))]
fn append_type(
    alloc: Global,
    out: &mut Vec<Node>,
    name: &[u8],
    named: &Named,
) -> Result<(), AllocError>
    ensures { OnOk result (nodes_seen out.new.items ≡ nodes_seen out.old.items ++ type_nodes name.now (named_model named.now)) }
{
    match named {
        Named::Predefined(predefined) => {
            append_node(alloc, out, NodeKind::Predefined(*predefined), 0, 0, name)
        }
        Named::Enumeration(members) => {
            append_node(alloc, out, NodeKind::Enumeration, 0, members.len(), name)?;
            append_members(alloc, out, members)
        }
        Named::Array(count, element) => {
            append_node(alloc, out, NodeKind::Array, u32::from(*count), 1, name)?;
            append_type(alloc, out, &[], element)
        }
        Named::Sequence(most, element) => {
            append_node(alloc, out, NodeKind::Sequence, u32::from(*most), 1, name)?;
            append_type(alloc, out, &[], element)
        }
        Named::Record(components) => append_record(alloc, out, name, components),
        Named::Choice(variants) => append_choice(alloc, out, name, variants),
    }
}

/// Appends the record of arguments or results, which has no name.
fn append_fields(alloc: Global, out: &mut Vec<Node>, fields: &Fields) -> Result<(), AllocError>
    ensures { OnOk result (nodes_seen out.new.items ≡ nodes_seen out.old.items ++ record_nodes (fields_model fields.now)) }
{
    append_record(alloc, out, &[], &fields.components)
}

/// Appends a constant that is a number, or a type; nothing of what else is declared.
fn append_meaning(
    alloc: Global,
    out: &mut Vec<Node>,
    name: &[u8],
    meaning: &Meaning,
) -> Result<(), AllocError>
    ensures nodes { OnOk result (nodes_seen out.new.items ≡ nodes_seen out.old.items ++ meaning_nodes (name.now, meaning_model meaning.now)) }
    ensures memory { OnErr result (meaning_nodes (name.now, meaning_model meaning.now) ≢ []) }
{
    match meaning {
        Meaning::Type { named, size: _ } => append_type(alloc, out, name, named),
        Meaning::Constant(Some(number)) => {
            append_node(alloc, out, NodeKind::Constant, *number, 0, name)
        }
        Meaning::Constant(None) | Meaning::Recursive | Meaning::Procedure | Meaning::Error => {
            Ok(())
        }
    }
}

fn append_meanings(
    alloc: Global,
    out: &mut Vec<Node>,
    meanings: &[(Vec<u8>, Meaning)],
) -> Result<(), AllocError>
    ensures nodes { OnOk result (nodes_seen out.new.items ≡ nodes_seen out.old.items ++ flat_map meaning_nodes (meanings_seen meanings.now)) }
    ensures memory { OnErr result (flat_map meaning_nodes (meanings_seen meanings.now) ≢ []) }
{
    for meaning in meanings {
        append_meaning(alloc, out, &meaning.0, &meaning.1)?;
    }
    Ok(())
}

fn append_procedure(
    alloc: Global,
    out: &mut Vec<Node>,
    procedure: &Procedure,
) -> Result<(), AllocError>
    ensures { OnOk result (nodes_seen out.new.items ≡ nodes_seen out.old.items ++ procedure_nodes (resolved_procedure procedure.now)) }
{
    append_node(
        alloc,
        out,
        NodeKind::Procedure,
        u32::from(procedure.number),
        2,
        &procedure.name,
    )?;
    append_fields(alloc, out, &procedure.arguments)?;
    append_fields(alloc, out, &procedure.results)
}

fn append_procedures(
    alloc: Global,
    out: &mut Vec<Node>,
    procedures: &[Procedure],
) -> Result<(), AllocError>
    ensures nodes { OnOk result (nodes_seen out.new.items
        ≡ nodes_seen out.old.items ++ flat_map procedure_nodes (map resolved_procedure procedures.now)) }
    ensures memory { OnErr result (flat_map procedure_nodes (map resolved_procedure procedures.now) ≢ []) }
{
    for procedure in procedures {
        append_procedure(alloc, out, procedure)?;
    }
    Ok(())
}

fn append_error(alloc: Global, out: &mut Vec<Node>, error: &RemoteError) -> Result<(), AllocError>
    ensures { OnOk result (nodes_seen out.new.items ≡ nodes_seen out.old.items ++ error_nodes (resolved_error error.now)) }
{
    append_node(
        alloc,
        out,
        NodeKind::Error,
        u32::from(error.number),
        1,
        &error.name,
    )?;
    append_fields(alloc, out, &error.arguments)
}

fn append_errors(
    alloc: Global,
    out: &mut Vec<Node>,
    errors: &[RemoteError],
) -> Result<(), AllocError>
    ensures nodes { OnOk result (nodes_seen out.new.items ≡ nodes_seen out.old.items ++ flat_map error_nodes (map resolved_error errors.now)) }
    ensures memory { OnErr result (flat_map error_nodes (map resolved_error errors.now) ≢ []) }
{
    for error in errors {
        append_error(alloc, out, error)?;
    }
    Ok(())
}

/// The table of a program: its constants and types, then its procedures, then its errors. The only error is want of memory, where there is
/// a node.
#[tactic(auto, unfolding(crate::specs::Tables::program_nodes))]
pub fn table_of(alloc: Global, program: &Program) -> Result<Vec<Node>, AllocError>
    ensures nodes { IfOk result (λ nodes. nodes_seen nodes.items ≡ program_nodes (resolved_model program.now)) }
    ensures memory { OnErr result (program_nodes (resolved_model program.now) ≢ []) }
{
    let mut nodes = Vec::new(alloc);
    append_meanings(alloc, &mut nodes, &program.meanings)?;
    append_procedures(alloc, &mut nodes, &program.procedures)?;
    append_errors(alloc, &mut nodes, &program.errors)?;
    Ok(nodes)
}
