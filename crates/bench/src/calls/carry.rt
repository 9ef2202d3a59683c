//! Carries the items of a conversation, in memory.

ghost use Rattle.std.specs.Prelude.{◌≡◌};
ghost use Rattle.courier_calls.specs.Table.{table_model, IsCheckedTable};

use courier_calls::{Call, Caller, Seen, Server, Service, Table};
use courier_messages::SessionFault;
use courier_types::Value;
use std::alloc::{AllocError, Global};
use xns_spp::Item;

/// How many items a message has at most.
const MOST_ITEMS: usize = 246;

/// Feeds the server what the caller has out, until the server has something out.
fn ask<S: Service>(
    alloc: Global,
    caller: &mut Caller,
    server: &mut Server<S>,
) -> Result<(), SessionFault> {
    for _ in 0..MOST_ITEMS {
        if server.has_out() {
            break;
        }
        let Some(item) = caller.next_out() else {
            break;
        };
        server.feed(alloc, item)?;
    }
    Ok(())
}

/// Feeds the caller what the server has out, unless the caller has something out.
fn answer<S: Service>(
    alloc: Global,
    caller: &mut Caller,
    server: &mut Server<S>,
) -> Result<(), SessionFault> {
    for _ in 0..MOST_ITEMS {
        if caller.has_out() {
            break;
        }
        let Some(item) = server.next_out() else {
            break;
        };
        caller.feed(alloc, item)?;
    }
    Ok(())
}

/// Feeds each side the first item of the other, which has its versions.
fn greet<S: Service>(
    alloc: Global,
    caller: &mut Caller,
    server: &mut Server<S>,
) -> Result<(), SessionFault> {
    let versions = server.next_out();
    ask(alloc, caller, server)?;
    match versions {
        Some(item) if !caller.has_out() => caller.feed(alloc, item),
        _ => Ok(()),
    }
}

/// What the outcome adds up to: a long cardinal or a list of cardinals that was returned, and 0 of any other outcome; `None` where there is
/// none.
fn sum(outcome: &Option<Seen>) -> Option<u64> {
    match outcome {
        Some(Seen::Returned(Value::LongCardinal(number))) => Some(u64::from(*number)),
        Some(Seen::Returned(Value::Sequence(values))) => Some(sum_cardinals(values)),
        Some(_) => Some(0),
        None => None,
    }
}

/// What the cardinals among the values add up to.
fn sum_cardinals(values: &[Value]) -> u64 {
    let mut all: u64 = 0;
    for value in values {
        if let Value::Cardinal(number) = value {
            all = all.saturating_add(u64::from(*number));
        }
    }
    all
}

/// Picks up the caller's outcome, and returns what it adds up to; `None` where there is no outcome.
fn take_sum(caller: &mut Caller) -> Option<u64> {
    sum(&caller.outcome())
}

/// Makes the call once, and returns what its outcome adds up to; `None` where a session stops, or the call is not made or not answered.
fn make<S: Service>(
    alloc: Global,
    caller: &mut Caller,
    server: &mut Server<S>,
    call: &Call,
) -> Option<u64> {
    caller.call(alloc, call).ok()?;
    ask(alloc, caller, server).ok()?;
    answer(alloc, caller, server).ok()?;
    take_sum(caller)
}

/// Makes the call so many times, and returns what the last outcome adds up to; `None` where there is no outcome, a session stops, or a
/// call is not made or not answered.
fn make_all<S: Service>(
    alloc: Global,
    caller: &mut Caller,
    server: &mut Server<S>,
    call: &Call,
    count: u32,
) -> Option<u64> {
    greet(alloc, caller, server).ok()?;
    let mut last = None;
    for _ in 0..count {
        last = Some(make(alloc, caller, server, call)?);
    }
    last
}

/// Makes the call so many times between a new caller and a server, as `make_all` does; 0 where that returns `None`.
fn repeat_at<S: Service>(
    alloc: Global,
    table: &Table,
    server: &mut Server<S>,
    call: &Call,
    count: u32,
) -> Result<u64, AllocError>
    requires { IsCheckedTable (table_model table.now) }
{
    let mut caller = Caller::new(alloc, table)?;
    Ok(make_all(alloc, &mut caller, server, call, count).unwrap_or(0))
}

/// Makes the call so many times between a new caller and a new server of the service, as `repeat_at` does.
pub fn repeat<S: Service>(
    alloc: Global,
    table: &Table,
    service: S,
    call: &Call,
    count: u32,
) -> Result<u64, AllocError>
    requires listed { table_model table.now ≡ S.serving.table }
    requires checked { IsCheckedTable (table_model table.now) }
    requires state { S.IsServiceState service }
{
    let mut server = Server::new(alloc, table, service)?;
    repeat_at(alloc, table, &mut server, call, count)
}
