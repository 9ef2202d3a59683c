//! Courier's calls: a caller, a server of the tally, and what goes between them, item by item.

use crate::hex_lines::print_hex;
use courier_calls::{Arguments, Call, Caller, Seen, Server, Tally, tally_table};
use courier_types::Value;
use std::io;
use xns_spp::Item;

/// Add of 5, as the table of the tally lists it.
pub fn add_five() -> Call {
    Call {
        program: 7,
        version: 2,
        procedure: 1,
        arguments: Arguments::Typed(Value::Cardinal(5)),
    }
}

/// Makes a server of the tally and a caller, has them exchange a call and its answer, and prints the server's total.
pub fn converse(rt: &HostRuntime) -> io::Result<()> {
    let alloc = rt.alloc();
    let table = tally_table(alloc)?;
    let mut server = Server::new(alloc, &table, Tally::new())?;
    talk(rt, Caller::new(alloc, &table)?, &mut server)?;
    print_total(rt, server)
}

/// Has the caller talk to the server, and then drops it.
fn talk(rt: &HostRuntime, mut caller: Caller, server: &mut Server<Tally>) -> io::Result<()> {
    exchange(rt, &mut caller, server)
}

/// Carries the versions of each side to the other, then a call to the server, and its answer to the caller.
fn exchange(rt: &HostRuntime, caller: &mut Caller, server: &mut Server<Tally>) -> io::Result<()> {
    let versions = server.next_out();
    feed_server(rt, server, caller.next_out())?;
    feed_caller(rt, caller, versions)?;
    call(rt, caller)?;
    feed_server(rt, server, caller.next_out())?;
    feed_caller(rt, caller, server.next_out())?;
    print_outcome(rt, caller)
}

/// Makes a call, which the caller then has out.
fn call(rt: &HostRuntime, caller: &mut Caller) -> io::Result<()> {
    let called = caller.call(rt.alloc(), &add_five());
    match called {
        Ok(()) => Ok(()),
        Err(fault) => println!(rt; "not called: {fault:?}"),
    }
}

/// Prints what the call returned.
fn print_outcome(rt: &HostRuntime, caller: &mut Caller) -> io::Result<()> {
    match caller.outcome() {
        Some(Seen::Returned(value)) => println!(rt; "returned {value:?}"),
        _ => Ok(()),
    }
}

/// Prints the total of the tally, which the server gives back.
fn print_total(rt: &HostRuntime, server: Server<Tally>) -> io::Result<()> {
    println!(rt; "the total is {}", server.into_service().total())
}

/// Feeds the server an item, where there is one and the server has nothing out.
fn feed_server(rt: &HostRuntime, server: &mut Server<Tally>, item: Option<Item>) -> io::Result<()> {
    let Some(item) = item else {
        return Ok(());
    };
    print_hex(rt, item.body.as_slice())?;
    if server.has_out() {
        return tell_more_out(rt, "server");
    }
    match server.feed(rt.alloc(), item) {
        Ok(call) => print_call(rt, call),
        Err(fault) => println!(rt; "the server stops: {fault:?}"),
    }
}

/// Says that a side is not fed, since it has more out.
fn tell_more_out(rt: &HostRuntime, side: &str) -> io::Result<()> {
    println!(rt; "the {side} has more out")
}

/// Prints which call the server decided, where its message has ended.
fn print_call(rt: &HostRuntime, call: Option<Call>) -> io::Result<()> {
    match call {
        Some(call) => println!(rt; "procedure {} of program {}", call.procedure, call.program),
        None => Ok(()),
    }
}

/// Feeds the caller an item, where there is one and the caller has nothing out.
fn feed_caller(rt: &HostRuntime, caller: &mut Caller, item: Option<Item>) -> io::Result<()> {
    let Some(item) = item else {
        return Ok(());
    };
    print_hex(rt, item.body.as_slice())?;
    if caller.has_out() {
        return tell_more_out(rt, "caller");
    }
    match caller.feed(rt.alloc(), item) {
        Ok(()) => Ok(()),
        Err(fault) => println!(rt; "the caller stops: {fault:?}"),
    }
}
