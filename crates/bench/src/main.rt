//! Work that is timed, by `bench/compare.py` beside programs that are not proved. The first word names what is timed, and the further words
//! are its own, as its module says. With no words each is run once in a short form, so that what it prints can be compared.
#![tactic(auto)]

mod calls;
mod checksum;
mod codec;
mod exchange;
mod play;
mod timing;
mod values;

use crate::exchange::Way;
use crate::timing::Timing;
use anyhow::anyhow;
use std::{env, io};

/// The short runs, by the words that ask for them. The transactions of the calls pass 65,535 and begin again at 0.
const SHORT: &[(&str, Timing)] = &[
    ("calls 100000 5", Timing::Calls(100_000, 5)),
    ("checksum", Timing::Checksum),
    ("codec", Timing::Codec),
    ("exchange lossy", Timing::Exchange(Way::Lossy, 1)),
    ("play 1000", Timing::PlayItems(1000)),
    ("values", Timing::Values(0)),
];

fn main(rt: HostRuntime) -> Result<(), anyhow::Error> {
    let arguments: Vec<String> = env::args(&rt)?.skip(1).collect(rt.alloc())?;
    run(&rt, &arguments)
}

/// Runs what the words ask for, and each in its short form where there are none.
fn run(rt: &HostRuntime, arguments: &[String]) -> Result<(), anyhow::Error> {
    let Some((name, words)) = arguments.split_first() else {
        return Ok(run_each(rt)?);
    };
    match Timing::named(name.as_str(), words) {
        Some(timing) => Ok(timing.run(rt)?),
        None => Err(anyhow!("{name} is none of calls, checksum, codec, exchange, play and values")),
    }
}

/// Runs each in its short form, whose words stand above what it prints.
fn run_each(rt: &HostRuntime) -> io::Result<()> {
    for (line, timing) in SHORT {
        println!(rt; "{line}:")?;
        timing.run(rt)?;
    }
    Ok(())
}
