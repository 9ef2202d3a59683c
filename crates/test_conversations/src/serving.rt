//! A server of the tally, as lines play it.
use crate::script::{item, put_out, put_session_fault, put_words};
use courier_calls::{Arguments, Call, Server, Tally, tally_table};
use courier_messages::SessionFault;
use std::alloc::{AllocError, Global};
use std::fmt::Write;

fn put_call(text: &mut String, call: &Call) -> Result<(), AllocError> {
    write!(
        text,
        " call {} {} {}",
        call.program, call.version, call.procedure
    )?;
    match &call.arguments {
        Arguments::Raw(words) => put_words(text, words.as_slice()),
        Arguments::Typed(_) => text.push_str(" typed"),
    }
}

/// Feeds an item when nothing is out: the call that it ends, or the fault, and then what goes out.
fn put_step(
    alloc: Global,
    server: &mut Server<Tally>,
    step: &str,
    text: &mut String,
) -> Result<(), AllocError> {
    if server.has_out() {
        return text.push_str(" more is out");
    }
    put_fed(text, server.feed(alloc, item(alloc, step)?))?;
    put_out(text, || server.next_out())
}

/// The result of feeding an item: the call that it ends, or the fault.
fn put_fed(text: &mut String, fed: Result<Option<Call>, SessionFault>) -> Result<(), AllocError> {
    match fed {
        Ok(Some(call)) => put_call(text, &call),
        Ok(None) => Ok(()),
        Err(fault) => put_session_fault(text, fault),
    }
}

/// The items that a server puts out at first, and those with which it answers calls.
fn put_steps(
    alloc: Global,
    server: &mut Server<Tally>,
    steps: &str,
    text: &mut String,
) -> Result<(), AllocError> {
    put_out(text, || server.next_out())?;
    for step in steps.split(' ') {
        put_step(alloc, server, step, text)?;
    }
    Ok(())
}

/// The items with which a server answers calls, and the total at last.
pub fn play(alloc: Global, steps: &str, text: &mut String) -> Result<(), AllocError> {
    let table = tally_table(alloc)?;
    let mut server = Server::new(alloc, &table, Tally::new())?;
    put_steps(alloc, &mut server, steps, text)?;
    write!(text, " total {}", server.into_service().total())
}
