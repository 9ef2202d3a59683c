//! A taker of lines that counts them.
ghost use Rattle.std.specs.Prelude.{◌≡◌, IfOk, length};
ghost use Rattle.xns_lines.specs.Lines.{lines_of};

use std::alloc::Global;
use std::io::Write;
use xns_lines::{LineTaker, MOST_LINES, RunFault, take_lines};

/// How many lines were taken.
#[derive(Drop)]
struct LineCounter {
    count: usize,
}

impl LineTaker for LineCounter {
    ghost use Rattle.std.specs.Prelude.{◌≡◌, length};
    ghost use Rattle.xns_lines.specs.Lines.{most_lines};

    ghost limit = { most_lines };

    ghost stands = { λ taker before after lines. taker.count ≡ length lines };

    ghost fails = { λ taker before after lines. ⊥ };

    fn take_line<W: Write>(
        &mut self,
        number: usize,
        _line: &[u8],
        _writer: &mut W,
    ) -> Result<(), RunFault> {
        self.count = number;
        Ok(())
    }

    fn pause<W: Write>(&mut self, _writer: &mut W) -> Result<(), RunFault> {
        Ok(())
    }
}

/// How many lines the bytes have.
fn count_lines(alloc: Global, bytes: &[u8]) -> Result<usize, RunFault>
    ensures { IfOk result (λ count. count ≡ length (lines_of bytes.now)) }
{
    let mut reader = bytes;
    let mut nothing_written = Vec::new(alloc);
    let mut counter = LineCounter { count: 0 };
    take_lines(
        alloc,
        MOST_LINES,
        &mut reader,
        &mut counter,
        &mut nothing_written,
    )?;
    Ok(counter.count)
}

/// Counts the lines of a text, whose last line has no end of its own.
pub fn count(rt: &HostRuntime) -> Result<(), anyhow::Error> {
    println!(rt; "{} lines", count_lines(rt.alloc(), b"one\r\n\nthree")?)?;
    Ok(())
}
