//! What was found of programs, given to C.

ghost use Rattle.std.specs.Prelude.{◌≡◌, ◌≢◌, ◌<◌, ◌≤◌, ◌⊎◌, length as length_of, [], Err, IfOk, List, MatchOption, None, Ok, OnErr, Option, Result, Some, ℕ};
ghost use Rattle.call_texts.specs.Calls.{ShowsDeclared};
ghost use Rattle.call_texts.specs.Showing.{UnreadModel};
ghost use Rattle.call_texts.specs.declared.unread.Unshown.TheVariants.{NoMemory};
ghost use Rattle.courier_programs.specs.Meanings.{resolved_model};
ghost use Rattle.program_tables.specs.Tables.{nodes_seen, program_nodes};
ghost use Rattle.xns_c.specs.Given.{IsPut};
ghost use Rattle.xns_c.specs.Programs.{BytesAreGiven, GivesBytes, GivesText, TableIsGiven, TellsProgram, names_given, nodes_given};
ghost use Rattle.xns_c.specs.Programs.{program_called as program_called_of, unread_number};
ghost use Rattle.xns_c.specs.Results.{ok, no_memory, short_buffer};

use crate::finding::program_called;
use crate::front::put_front;
use crate::node::XnsNode;
use crate::reasons::kind_number;
use crate::results::{
    LEFT_OVER, NO_MEMORY, NOT_BOOLEAN, NOT_LISTED, NOTHING, OK, OVER_MAXIMUM, SHORT_BUFFER,
    TOO_LONG, TRUNCATED,
};
use crate::told::tell_both;
use call_texts::{UnreadReason, Unshown};
use courier_programs::Program;
use program_tables::{Node, table_of};
use std::alloc::{AllocError, Global};

/// Tells the number and the version of the first program of this name, if there is one.
pub fn tell_program(programs: &[Program], name: &[u8], number: &mut u32, version: &mut u16) -> u32
    ensures { TellsProgram (program_called_of programs.now name.now) (number.old, version.old) (number.new, version.new) result }
{
    let found = program_called(programs, name).map(|found| (found.number, found.version));
    tell_both(found, NOTHING, number, version)
}

/// Puts bytes to the front of a buffer.
fn give_bytes(bytes: &[u8], buffer: &mut [u8], written: &mut usize) -> u32
    ensures { BytesAreGiven bytes.now buffer.old buffer.new written.new result }
{
    put_front(bytes, buffer, written)
}

/// Puts a name, if there is one, to the front of a buffer.
pub fn give_name(name: Option<&[u8]>, buffer: &mut [u8], written: &mut usize) -> u32
    ensures { (found : Option (List ℕ)) → MatchOption name.entry (found ≡ None) (λ n. found ≡ Some n.now)
        → GivesBytes found buffer.old buffer.new written.old written.new result }
{
    match name {
        Some(name) => give_bytes(name, buffer, written),
        None => NOTHING,
    }
}

/// Why words have no text.
fn unread_number(reason: UnreadReason) -> u32
    ensures { result ≡ unread_number reason }
{
    match reason {
        UnreadReason::Truncated => TRUNCATED,
        UnreadReason::NotBoolean => NOT_BOOLEAN,
        UnreadReason::NotListed => NOT_LISTED,
        UnreadReason::OverMaximum => OVER_MAXIMUM,
        UnreadReason::Trailing => LEFT_OVER,
        UnreadReason::LongText => TOO_LONG,
    }
}

/// Puts a text to the front of a buffer, or tells why there is none.
pub fn give_text(
    shown: Result<Option<Vec<u8>>, Unshown>,
    buffer: &mut [u8],
    written: &mut usize,
    place: &mut usize,
) -> u32
    ensures given { (text : Option (Result (List ℕ) UnreadModel)) → ShowsDeclared shown text → result ≢ no_memory
        → GivesText text buffer.old buffer.new written.old written.new place.old place.new result }
    ensures memory { result ≡ no_memory → (buffer.new ≡ buffer.old) × (written.new ≡ written.old) × (place.new ≡ place.old) }
    ensures refused { result ≡ no_memory → shown ≡ Err NoMemory }
{
    match shown {
        Ok(Some(text)) => give_bytes(&text, buffer, written),
        Ok(None) => NOTHING,
        Err(Unshown::Unread(unread)) => {
            *place = unread.place;
            unread_number(unread.reason)
        }
        Err(Unshown::NoMemory) => NO_MEMORY,
    }
}

/// The nodes of a table as C has them, and their names.
pub fn nodes_out(alloc: Global, nodes: &[Node]) -> Result<(Vec<XnsNode>, Vec<u8>), AllocError>
    ensures nodes { IfOk result (λ t. t.0.items ≡ nodes_given 0 (nodes_seen nodes.now)) }
    ensures names { IfOk result (λ t. t.1.items ≡ names_given (nodes_seen nodes.now)) }
    ensures memory { OnErr result (nodes_seen nodes.now ≢ []) }
{
    let mut table = Vec::new(alloc);
    let mut names = Vec::new(alloc);
    for node in nodes {
        table.push(XnsNode {
            kind: kind_number(node.kind),
            number: node.number,
            parts: node.parts,
            name: names.len(),
        })?;
        names.extend_from_slice(&node.name)?;
        names.push(0)?;
    }
    Ok((table, names))
}

/// Puts nodes and names to the front of buffers, and says how many they are. Buffers of which one is too short stay as they are.
fn give_table(
    table: &[XnsNode],
    text: &[u8],
    nodes: &mut [XnsNode],
    count: &mut usize,
    names: &mut [u8],
    length: &mut usize,
) -> u32
    ensures put { length_of table.now ≤ length_of nodes.old → length_of text.now ≤ length_of names.old → (result ≡ ok)
        × IsPut table.now nodes.old nodes.new count.new × IsPut text.now names.old names.new length.new }
    ensures short { (length_of nodes.old < length_of table.now) ⊎ (length_of names.old < length_of text.now) → (result ≡ short_buffer)
        × (count.new ≡ length_of table.now) × (length.new ≡ length_of text.now) × (nodes.new ≡ nodes.old) × (names.new ≡ names.old) }
    ensures answer { (result ≡ ok) ⊎ (result ≡ short_buffer) }
{
    *count = table.len();
    *length = text.len();
    if nodes.len() < table.len() || names.len() < text.len() {
        return SHORT_BUFFER;
    }
    nodes[..table.len()].copy_from_slice(table);
    names[..text.len()].copy_from_slice(text);
    OK
}

/// Gives the table of a program.
pub fn give_program(
    alloc: Global,
    program: &Program,
    nodes: &mut [XnsNode],
    count: &mut usize,
    names: &mut [u8],
    length: &mut usize,
) -> u32
    ensures given { result ≢ no_memory → TableIsGiven (program_nodes (resolved_model program.now)) nodes.old nodes.new names.old names.new
        (count.new, length.new) result }
    ensures wants { result ≡ no_memory → program_nodes (resolved_model program.now) ≢ [] }
    ensures memory { result ≡ no_memory → (nodes.new ≡ nodes.old) × (names.new ≡ names.old) × (count.new ≡ count.old) × (length.new ≡ length.old) }
{
    let Ok(table) = table_of(alloc, program) else {
        return NO_MEMORY;
    };
    let Ok((out, text)) = nodes_out(alloc, &table) else {
        return NO_MEMORY;
    };
    give_table(&out, &text, nodes, count, names, length)
}
