//! The table of the tally.
ghost use Rattle.std.specs.Prelude.{◌≡◌, IfOk};
ghost use Rattle.courier_calls.specs.Table.{table_model, IsCheckedTable};
ghost use Rattle.courier_calls.specs.Tally.{tally};

use crate::table::{Entry, ErrorEntry, Procedure, Table};
use courier_types::Shape;
use std::alloc::{AllocError, Global};

const PROGRAM: u32 = 7;

const LOW: u16 = 1;

const HIGH: u16 = 2;

/// The procedure that adds.
pub const ADD: u16 = 1;

/// The procedure that tells the total.
const TOTAL: u16 = 2;

/// The error where the total would be over its most.
pub const OVER: u16 = 1;

fn make_table(alloc: Global) -> Result<Table, AllocError>
    ensures { IfOk result (λ t. table_model t ≡ tally.table) }
{
    let mut procedures = Vec::with_capacity(alloc, 2)?;
    procedures.push(Procedure {
        number: ADD,
        arguments: Shape::Cardinal,
        results: Shape::LongCardinal,
    })?;
    procedures.push(Procedure {
        number: TOTAL,
        arguments: Shape::Fields(Vec::new(alloc)),
        results: Shape::LongCardinal,
    })?;
    let mut errors = Vec::with_capacity(alloc, 1)?;
    errors.push(ErrorEntry {
        number: OVER,
        arguments: Shape::LongCardinal,
    })?;
    let mut entries = Vec::with_capacity(alloc, 1)?;
    entries.push(Entry {
        program: PROGRAM,
        low: LOW,
        high: HIGH,
        procedures,
        errors,
    })?;
    Ok(Table { entries })
}

/// The table of the tally: program 7, versions 1 to 2. Procedure 1 adds a cardinal, 2 tells the total; error 1, with
/// the total, where it would be over a million.
#[tactic(auto, using(crate::proofs::Tallies::checked_if_named))]
pub fn tally_table(alloc: Global) -> Result<Table, AllocError>
    ensures names { IfOk result (λ t. table_model t ≡ tally.table) }
    ensures checked { IfOk result (λ t. IsCheckedTable (table_model t)) }
{
    make_table(alloc)
}
