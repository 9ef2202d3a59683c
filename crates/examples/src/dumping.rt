//! `dump` over lines of hex in memory.
ghost use Rattle.std.specs.Prelude.{◌≡◌, IfOk};
ghost use Rattle.xns_dump.specs.Dump.{dump_text};

use std::alloc::Global;
use std::io::{self, Write};
use xns_dump::dump;
use xns_lines::RunFault;

/// A packet that opens a connection, one that brings its first item, and a line that is refused.
const LINES: &[u8] =
    b"cc1c002a0005000000010000aa0001020005000000010000aa0003040400c00012340000000000000003
718e002f0005000000010000aa0001020005000000010000aa000304040050001234567800000000000348656c6c6f00
4869
";

/// What the lines say.
fn text_of(alloc: Global, lines: &[u8]) -> Result<Vec<u8>, RunFault>
    ensures { IfOk result (λ text. text.items ≡ dump_text lines.now) }
{
    let mut reader = lines;
    let mut text = Vec::new(alloc);
    dump(alloc, &mut reader, &mut text)?;
    Ok(text)
}

/// Prints what the lines say.
pub fn show(rt: &HostRuntime) -> Result<(), anyhow::Error> {
    let text = text_of(rt.alloc(), LINES)?;
    io::writer(rt).write_all(text.as_slice())?;
    Ok(())
}
