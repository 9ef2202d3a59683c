//! Calls of three words, each answered by its own words, in memory: between two hosts, and between the same ends made by hand of endpoints
//! and sessions. So many connections are opened, each by a call, and then so many calls are made on the last one.

mod by_hand;
mod pair;

use crate::room;
use crate::speed::by_hand::ByHand;
use crate::speed::pair::Pair;
use std::alloc::Global;

/// The ends between which the calls are made.
#[derive(Clone, Copy)]
pub enum Made {
    /// Two hosts.
    Hosts,
    /// Two endpoints and two sessions, put together by hand.
    ByHand,
}

/// The words of each call.
const WORDS: [u16; 3] = [1, 2, 3];

/// Makes so many calls on the last of so many connections, and prints how many were answered.
pub fn run(
    rt: &HostRuntime,
    made: Made,
    connections: u32,
    calls: u32,
) -> Result<(), anyhow::Error> {
    let answered = match made {
        Made::Hosts => between_hosts(rt.alloc(), connections, calls)?,
        Made::ByHand => between_ends(rt.alloc(), calls)?,
    };
    println!(rt; "in memory: {answered} of {calls} calls answered")?;
    Ok(())
}

/// Makes this many calls between two hosts, and returns how many were answered.
fn between_hosts(alloc: Global, connections: u32, calls: u32) -> Result<u32, anyhow::Error> {
    let mut pairs = room(alloc)?;
    pairs.push(Pair::new(alloc, connections as usize)?)?;
    let mut answered = 0;
    for pair in &mut pairs {
        answered = pair.call_all(connections, calls)?;
    }
    Ok(answered)
}

/// Makes this many calls between ends that are made by hand, and returns how many were answered.
fn between_ends(alloc: Global, calls: u32) -> Result<u32, anyhow::Error> {
    let mut all = room(alloc)?;
    all.push(ByHand::new(alloc)?)?;
    let mut answered = 0;
    for ends in &mut all {
        answered = ends.call_all(calls)?;
    }
    Ok(answered)
}
