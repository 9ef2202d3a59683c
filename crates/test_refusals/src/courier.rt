//! Courier's messages, and the sessions' beginnings.

ghost use Rattle.std.specs.Prelude.{◌≡◌};
ghost use Rattle.courier_calls.specs.Table.{table_model, IsCheckedTable};
ghost use Rattle.courier_calls.specs.Tally.{tally};

use crate::outcome::{Outcome, done, refused};
use courier_calls::{Caller, Server, Table, Tally, tally_table};
use courier_messages::{Message, Words, read_message, write_message};
use std::alloc::{AllocError, Global};

/// A return with two words.
const RETURN: [u8; 8] = [0, 2, 0, 1, 0, 0, 0, 5];

fn is_return(message: &Message) -> bool {
    match message {
        Message::Return { transaction, words } => *transaction == 1
            && words.as_slice() == [0, 5].as_slice(),
        _ => false,
    }
}

pub fn reads_a_message(alloc: Global) -> Result<Outcome, AllocError> {
    if let Ok(message) = read_message(alloc, &RETURN) {
        return Ok(done(is_return(&message)));
    }
    match read_message(alloc, &RETURN) {
        Ok(message) => Ok(refused(true, is_return(&message))),
        Err(_) => Ok(Outcome::Broken),
    }
}

fn return_message(alloc: Global) -> Result<Message, AllocError> {
    Ok(Message::Return {
        transaction: 1,
        words: Words::new(Vec::from_slice(alloc, &[0, 5])?),
    })
}

/// The outcome of writing the message behind the one byte of the vector.
fn writes_behind(alloc: Global, message: &Message, out: &mut Vec<u8>) -> Outcome {
    if write_message(alloc, message, out).is_ok() {
        return done(out.as_slice().get(1..) == Some(RETURN.as_slice()));
    }
    let stood = out.as_slice() == [0xaa].as_slice();
    let again = write_message(alloc, message, out).is_ok();
    refused(
        stood,
        again && out.as_slice().get(1..) == Some(RETURN.as_slice()),
    )
}

pub fn writes_a_message(alloc: Global) -> Result<Outcome, AllocError> {
    let message = return_message(alloc)?;
    let mut out = vec![in alloc; 0xaa]?;
    Ok(writes_behind(alloc, &message, &mut out))
}

pub fn makes_a_table(alloc: Global) -> Result<bool, AllocError> {
    Ok(tally_table(alloc)?.entries.len() == 1)
}

/// Whether a new server of the table has its versions out.
fn server_has_out(alloc: Global, table: &Table) -> Result<bool, AllocError>
    requires listed { table_model table.now ≡ tally.table }
    requires checked { IsCheckedTable (table_model table.now) }
{
    Ok(Server::new(alloc, table, Tally::new())?.has_out())
}

pub fn makes_a_server(alloc: Global) -> Result<Outcome, AllocError> {
    let table = tally_table(alloc)?;
    if let Ok(has_out) = server_has_out(alloc, &table) {
        return Ok(done(has_out));
    }
    Ok(refused(true, server_has_out(alloc, &table)?))
}

/// Whether a new caller of the table has its versions out.
fn caller_has_out(alloc: Global, table: &Table) -> Result<bool, AllocError>
    requires { IsCheckedTable (table_model table.now) }
{
    Ok(Caller::new(alloc, table)?.has_out())
}

pub fn makes_a_caller(alloc: Global) -> Result<Outcome, AllocError> {
    let table = tally_table(alloc)?;
    if let Ok(has_out) = caller_has_out(alloc, &table) {
        return Ok(done(has_out));
    }
    Ok(refused(true, caller_has_out(alloc, &table)?))
}
