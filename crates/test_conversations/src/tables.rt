//! Tables with faults.
use crate::script::put;
use courier_calls::{Entry, ErrorEntry, Procedure, Table, tally_table};
use courier_types::Shape;
use std::alloc::{AllocError, Global};
use std::fmt::Write;

/// Lists a procedure more, whose argument is a cardinal.
pub fn list_procedure(entry: &mut Entry, number: u16, results: Shape) -> Result<(), AllocError> {
    entry.procedures.push(Procedure {
        number,
        arguments: Shape::Cardinal,
        results,
    })?;
    Ok(())
}

/// Lists an error more, whose argument is a cardinal.
fn list_error(entry: &mut Entry, number: u16) -> Result<(), AllocError> {
    entry.errors.push(ErrorEntry {
        number,
        arguments: Shape::Cardinal,
    })?;
    Ok(())
}

/// Changes the tally's table.
///
/// - `DoubledProgram`: its entry stands twice.
/// - `LowOverHigh`: its versions are from 2 to 1.
/// - `DoubledProcedure`: its procedure 1 stands twice.
/// - `DoubledError`: its error 1 stands twice.
/// - `EmptyResults`: it gets a procedure whose results are an enumeration without members.
/// - All other words change nothing.
fn apply(alloc: Global, table: &mut Table, change: &str) -> Result<(), AllocError> {
    if change == "DoubledProgram" {
        return table.entries.append(&mut tally_table(alloc)?.entries);
    }
    match table.entries.first_mut() {
        Some(entry) => apply_within(alloc, entry, change),
        None => Ok(()),
    }
}

/// Changes an entry of a table.
fn apply_within(alloc: Global, entry: &mut Entry, change: &str) -> Result<(), AllocError> {
    match change {
        "LowOverHigh" => {
            entry.low = 2;
            entry.high = 1;
            Ok(())
        }
        "DoubledProcedure" => list_procedure(entry, 1, Shape::Cardinal),
        "DoubledError" => list_error(entry, 1),
        "EmptyResults" => list_procedure(entry, 3, Shape::Enumeration(Vec::new(alloc))),
        _ => Ok(()),
    }
}

/// The first fault of the tally's table with a change.
pub fn check(alloc: Global, change: &str, text: &mut String) -> Result<(), AllocError> {
    write!(text, "the tally's table with the change {change}: ")?;
    let mut table = tally_table(alloc)?;
    apply(alloc, &mut table, change)?;
    put(text, &table.check())
}
