//! Calls through a caller and a server in memory: as many calls Add of 5 to a tally as the first word says, and then as many calls of
//! 60,000 cardinals each way as the second says. Each must be answered: the total is then five times as much as there were calls, and the
//! sum that of 0 to 59,999.

mod carry;
mod lists;

use crate::calls::carry::repeat;
use crate::calls::lists::{Lists, lists_table};
use courier_calls::{Arguments, Call, Tally, tally_table};
use courier_types::Value;
use std::alloc::{AllocError, Global};
use std::io;

/// Makes so many calls of each kind.
pub fn run(rt: &HostRuntime, adds: u32, lists: u32) -> io::Result<()> {
    let total = add(rt.alloc(), adds)?;
    println!(rt; "{adds} calls, total {total}")?;
    let all = list(rt.alloc(), lists)?;
    println!(rt; "{lists} lists, sum {all}")
}

/// A call Add of 5.
fn add_call() -> Call {
    Call {
        program: 7,
        version: 2,
        procedure: 1,
        arguments: Arguments::Typed(Value::Cardinal(5)),
    }
}

/// Makes this many calls Add of 5, and returns what the last outcome adds up to.
fn add(alloc: Global, count: u32) -> Result<u64, AllocError> {
    let table = tally_table(alloc)?;
    repeat(alloc, &table, Tally::new(), &add_call(), count)
}

/// The numbers from 0 to 59,999.
fn numbers(alloc: Global) -> Result<Value, AllocError> {
    let mut numbers = Vec::with_capacity(alloc, 60_000)?;
    for number in 0..60_000 {
        numbers.push(Value::Cardinal(number))?;
    }
    Ok(Value::Sequence(numbers))
}

/// A call of 60,000 cardinals.
fn list_call(alloc: Global) -> Result<Call, AllocError> {
    Ok(Call {
        program: 8,
        version: 1,
        procedure: 1,
        arguments: Arguments::Typed(numbers(alloc)?),
    })
}

/// Makes this many calls of 60,000 cardinals each way, and returns what the last outcome adds up to.
fn list(alloc: Global, count: u32) -> Result<u64, AllocError> {
    let table = lists_table(alloc)?;
    if table.check().is_err() {
        return Ok(0);
    }
    let call = list_call(alloc)?;
    repeat(alloc, &table, Lists::new(), &call, count)
}
