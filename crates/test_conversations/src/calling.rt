//! A caller, as lines play it.
//!
//! A step is an item or one of these: `add` calls Add of 5, `text` Add of a text, `eight` program 8, `list` the procedure with
//! a list as its results, `raw` and a number Add with so many words of 0; `outcome` picks up an outcome.
use crate::script::{item, put_out, put_session_fault, put_words};
use crate::tables::list_procedure;
use courier_calls::{Arguments, Call, CallFault, Caller, Seen, Table, tally_table};
use courier_messages::Words;
use courier_types::{Shape, Value};
use std::alloc::{AllocError, Global};
use std::fmt::Write;

fn put_values(text: &mut String, values: &[Value]) -> Result<(), AllocError> {
    for value in values {
        match value {
            Value::Cardinal(number) => write!(text, " {number}")?,
            _ => text.push_str(" another value")?,
        }
    }
    Ok(())
}

fn put_value(text: &mut String, value: &Value) -> Result<(), AllocError> {
    match value {
        Value::LongCardinal(number) => write!(text, " {number}"),
        Value::Sequence(values) => put_values(text, values),
        _ => text.push_str(" another value"),
    }
}

fn put_outcome(text: &mut String, outcome: &Option<Seen>) -> Result<(), AllocError> {
    match outcome {
        None => text.push_str(" none"),
        Some(Seen::Returned(value)) => {
            text.push_str(" returned")?;
            put_value(text, value)
        }
        Some(Seen::Aborted(error, value)) => {
            write!(text, " aborted {error}")?;
            put_value(text, value)
        }
        Some(Seen::Rejected(reason, words)) => {
            write!(text, " rejected {reason}")?;
            put_words(text, words.as_slice())
        }
    }
}

fn call_fault(fault: CallFault) -> &'static str {
    match fault {
        CallFault::Busy => " Busy",
        CallFault::BadArguments => " BadArguments",
        CallFault::TooLong => " TooLong",
        CallFault::Failed => " Failed",
        CallFault::NoMemory => " NoMemory",
    }
}

fn make_call(program: u32, procedure: u16, arguments: Arguments) -> Call {
    Call {
        program,
        version: 2,
        procedure,
        arguments,
    }
}

fn raw_words(alloc: Global, count: &str) -> Result<Arguments, AllocError> {
    let count = count.parse::<u16>().unwrap_or(0);
    let mut words = Vec::new(alloc);
    for _ in 0..count {
        words.push(0)?;
    }
    Ok(Arguments::Raw(Words::new(words)))
}

/// The arguments of which there is one, a 5.
fn five() -> Arguments {
    Arguments::Typed(Value::Cardinal(5))
}

/// The call that a step makes; `None` where it makes none.
fn step_call(alloc: Global, step: &str) -> Result<Option<Call>, AllocError> {
    Ok(Some(match step {
        "add" => make_call(7, 1, five()),
        "eight" => make_call(8, 1, five()),
        "list" => make_call(7, 3, five()),
        "text" => make_call(7, 1, Arguments::Typed(Value::Text(Vec::new(alloc)))),
        _ => return raw_call(alloc, step),
    }))
}

/// The call that a step makes with words of 0.
fn raw_call(alloc: Global, step: &str) -> Result<Option<Call>, AllocError> {
    match step.strip_prefix("raw") {
        Some(count) => Ok(Some(make_call(7, 1, raw_words(alloc, count)?))),
        None => Ok(None),
    }
}

/// Makes a call, and tells what goes out.
fn put_call(
    alloc: Global,
    caller: &mut Caller,
    call: &Call,
    text: &mut String,
) -> Result<(), AllocError> {
    if let Err(fault) = caller.call(alloc, call) {
        text.push_str(call_fault(fault))?;
    }
    put_out(text, || caller.next_out())
}

/// Feeds an item when nothing is out, and tells the fault and what goes out.
fn put_fed(
    alloc: Global,
    caller: &mut Caller,
    step: &str,
    text: &mut String,
) -> Result<(), AllocError> {
    if caller.has_out() {
        return text.push_str(" more is out");
    }
    if let Err(fault) = caller.feed(alloc, item(alloc, step)?) {
        put_session_fault(text, fault)?;
    }
    put_out(text, || caller.next_out())
}

/// Makes the call of a step, or feeds its item.
fn put_sent(
    alloc: Global,
    caller: &mut Caller,
    step: &str,
    text: &mut String,
) -> Result<(), AllocError> {
    match step_call(alloc, step)? {
        Some(call) => put_call(alloc, caller, &call, text),
        None => put_fed(alloc, caller, step, text),
    }
}

fn put_step(
    alloc: Global,
    caller: &mut Caller,
    step: &str,
    text: &mut String,
) -> Result<(), AllocError> {
    match step {
        "outcome" => put_outcome(text, &caller.outcome()),
        _ => put_sent(alloc, caller, step, text),
    }
}

fn put_steps(
    alloc: Global,
    caller: &mut Caller,
    steps: &str,
    text: &mut String,
) -> Result<(), AllocError> {
    for step in steps.split(' ') {
        put_step(alloc, caller, step, text)?;
    }
    Ok(())
}

/// The tally's table with one procedure more, whose results are a list of cardinals.
fn longer_table(alloc: Global) -> Result<Table, AllocError> {
    let mut table = tally_table(alloc)?;
    if let Some(entry) = table.entries.first_mut() {
        let results = Shape::Sequence(9, Box::new(alloc, Shape::Cardinal)?);
        list_procedure(entry, 3, results)?;
    }
    Ok(table)
}

/// What a caller makes of the steps, over the tally's table with one procedure more.
pub fn play(alloc: Global, steps: &str, text: &mut String) -> Result<(), AllocError> {
    converse(alloc, &longer_table(alloc)?, steps, text)
}

/// What a caller makes of the steps, over the tally's own table.
pub fn play_own(alloc: Global, steps: &str, text: &mut String) -> Result<(), AllocError> {
    converse(alloc, &tally_table(alloc)?, steps, text)
}

fn converse(
    alloc: Global,
    table: &Table,
    steps: &str,
    text: &mut String,
) -> Result<(), AllocError> {
    if table.check().is_err() {
        return text.push_str(" the table has a fault");
    }
    put_steps(alloc, &mut Caller::new(alloc, table)?, steps, text)
}
