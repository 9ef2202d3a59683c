//! The calls of a capture, over lines of hex in memory.
ghost use Rattle.std.specs.Prelude.{◌≡◌, None, IfOk};
ghost use Rattle.xns_calls.specs.Calls.{calls_text};

use std::alloc::Global;
use std::io::{self, Write};
use xns_calls::calls;
use xns_lines::RunFault;

/// The versions of both sides, a call of Add 5 to a tally, and its answer.
const LINES: &[u8] =
    b"662b002e0005000000010000aa0003040400000000010000aa000102000550005678123400000000000300030003
cf2a002e0005000000010000aa0001020005000000010000aa000304040050001234567800000000000300030003
37e800380005000000010000aa0001020005000000010000aa00030404005000123456780001000000030000000100000007000200010005
9dd700320005000000010000aa0003040400000000010000aa00010200055000567812340001000200050002000100000005
";

/// The calls that the lines carry, and what came back.
fn calls_of(alloc: Global, lines: &[u8]) -> Result<Vec<u8>, RunFault>
    ensures { IfOk result (λ text. text.items ≡ calls_text None lines.now) }
{
    let mut reader = lines;
    let mut text = Vec::new(alloc);
    calls(alloc, None, &mut reader, &mut text)?;
    Ok(text)
}

/// Prints the calls.
pub fn show(rt: &HostRuntime) -> Result<(), anyhow::Error> {
    let text = calls_of(rt.alloc(), LINES)?;
    io::writer(rt).write_all(text.as_slice())?;
    Ok(())
}
