//! How long 640 items take from one end to the other, in timeouts and packets: by windows, with no packet lost and with one in ten, and by
//! what the two ends say of their own.
ghost use Rattle.std.specs.Prelude.{◌≤◌};

use crate::counts::Counts;
use crate::trial::Trial;
use crate::way::Way;
use std::alloc::{AllocError, Global};

const WINDOWS: [usize; 4] = [1, 2, 8, 64];

const WAYS: [(Way, &str); 4] = [
    (Way::Silent, "silent"),
    (Way::Telling, "telling"),
    (Way::Alone, "telling, first alone"),
    (Way::Once, "telling once, first alone"),
];

/// Prints a line of counts for each loss, window and way.
pub fn show(rt: &HostRuntime) -> Result<(), anyhow::Error> {
    for one_in in [0, 10] {
        for window in WINDOWS {
            show_ways(rt, one_in, window)?;
        }
    }
    Ok(())
}

/// Prints a line of counts for each way.
fn show_ways(rt: &HostRuntime, one_in: u32, window: usize) -> Result<(), anyhow::Error>
    requires window { (1 ≤ window) × (window ≤ 64) }
{
    for (way, name) in WAYS {
        let counts = counts(rt.alloc(), way, window, one_in)?;
        println!(rt;
            "lost {} in 10, window {window}, {name}: {counts}",
            one_in / 10
        )?;
    }
    Ok(())
}

/// What is counted of a trial.
fn counts(alloc: Global, way: Way, window: usize, one_in: u32) -> Result<Counts, AllocError>
    requires window { (1 ≤ window) × (window ≤ 64) }
{
    let mut trial = Trial::new(alloc, way, window, one_in)?;
    trial.run(alloc)?;
    Ok(trial.counts())
}
