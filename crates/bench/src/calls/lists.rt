//! A service that counts down.
ghost use Rattle.std.specs.Prelude.{◌≡◌, ◌≤◌, [], ◌∷◌, map, IfOk};
ghost use Rattle.courier_types.specs.Shape.{shape_model};
ghost use Rattle.courier_types.specs.Value.{value_model};
ghost use Rattle.courier_calls.specs.Table.{table_model};
ghost use Rattle.bench.specs.Lists.{counted, IsCount, list_shape, lists, lists_entry};
ghost use Rattle.bench.specs.ListsLaw.{lists_lawful};

use courier_calls::{Entry, Outcome, Procedure, Service, Table};
use courier_types::{Shape, Value};
use std::alloc::{AllocError, Global};

/// The service's one procedure, 1 of version 1 of program 8, takes a list of at most 60,000 cardinals and returns as long a list: the
/// numbers below 60,000, the greatest first.
#[derive(Drop)]
pub struct Lists {
    count: u16,
}

impl Lists {
    pub fn new() -> Lists
        ensures { IsCount result }
    {
        Lists { count: 60_000 }
    }
}

impl Service for Lists {
    ghost serving = { lists };

    ghost IsServiceState = { IsCount };

    ghost lawful = { lists_lawful };

    fn carry_out(
        &mut self,
        alloc: Global,
        _program: u32,
        _version: u16,
        _procedure: u16,
        _arguments: &Value,
    ) -> Result<Outcome, AllocError> {
        Ok(Outcome::Returned(Value::Sequence(count_down(alloc, self.count)?)))
    }
}

/// The numbers below the count, the greatest first.
fn count_down(alloc: Global, count: u16) -> Result<Vec<Value>, AllocError>
    ensures { IfOk result (λ values. map value_model values.items ≡ counted count) }
{
    let mut values = Vec::with_capacity(alloc, usize::from(count))?;
    let mut left = count;
    while left > 0 {
        left -= 1;
        values.push(Value::Cardinal(left))?;
    }
    Ok(values)
}

fn list_shape(alloc: Global) -> Result<Shape, AllocError>
    ensures { IfOk result (λ shape. shape_model shape ≡ list_shape) }
{
    Ok(Shape::Sequence(60_000, Box::new(alloc, Shape::Cardinal)?))
}

/// The table of the lists.
pub fn lists_table(alloc: Global) -> Result<Table, AllocError>
    ensures { IfOk result (λ table. table_model table ≡ lists_entry ∷ []) }
{
    let mut procedures = Vec::new(alloc);
    procedures.push(Procedure {
        number: 1,
        arguments: list_shape(alloc)?,
        results: list_shape(alloc)?,
    })?;
    let mut entries = Vec::new(alloc);
    entries.push(Entry {
        program: 8,
        low: 1,
        high: 1,
        procedures,
        errors: Vec::new(alloc),
    })?;
    Ok(Table { entries })
}
