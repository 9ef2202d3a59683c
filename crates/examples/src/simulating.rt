//! `sim` over a script in memory.
ghost use Rattle.std.specs.Prelude.{◌≡◌, IfOk};
ghost use Rattle.xns_sim.specs.Sim.{sim_text};

use std::alloc::Global;
use std::io::{self, Write};
use xns_lines::RunFault;
use xns_sim::sim;

/// A call, whose packet comes twice.
const SCRIPT: &[u8] = b"call add 5
tick a
deliver 0
deliver 1
deliver 3
deliver 4
deliver 4
rest
rest
";

/// The text of a script's play.
fn text_of(alloc: Global, script: &[u8]) -> Result<Vec<u8>, RunFault>
    ensures { IfOk result (λ text. text.items ≡ sim_text script.now) }
{
    let mut reader = script;
    let mut text = Vec::new(alloc);
    sim(alloc, &mut reader, &mut text)?;
    Ok(text)
}

/// Plays the script, and prints the trace.
pub fn play(rt: &HostRuntime) -> Result<(), anyhow::Error> {
    let text = text_of(rt.alloc(), SCRIPT)?;
    io::writer(rt).write_all(text.as_slice())?;
    Ok(())
}
