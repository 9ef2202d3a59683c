//! A line of the output.
ghost use Rattle.xns_dump.specs.Layers.Text.{line_of};
ghost use Rattle.xns_lines.specs.Report.{Adds};

use std::alloc::AllocError;
use xns_lines::Report;
use xns_lines::numbers::append_decimal;

/// What a line says between its number and its end. An `impl` names its text.
pub trait LineText {
    ghost use Rattle.std.specs.Prelude.{ℕ, List};
    ghost use Rattle.xns_lines.specs.Report.{Adds};

    // The text.
    ghost text: { Self → List ℕ };

    /// Appends the text.
    fn append_text(&self, report: &mut Report) -> Result<(), AllocError>
        ensures { Adds result report.old report.new (text self.now) };
}

/// Appends the line of that number.
pub fn append_line<L: LineText>(
    report: &mut Report,
    number: usize,
    line: &L,
) -> Result<(), AllocError>
    ensures { Adds result report.old report.new (line_of number (L.text line.now)) }
{
    append_decimal(report, number)?;
    line.append_text(report)?;
    report.append(b"\n")
}
