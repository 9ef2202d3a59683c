//! The bodies of Error packets, read and written.

ghost use Rattle.std.specs.Prelude.{◌≡◌, ◌+◌, ◌<◌, ◌≤◌, ◌++◌, length, take, IfOk, OnOk, OnErr, Ok, vec_len, vec_capacity};
ghost use Rattle.xns_small.specs.ErrorReport.{ErrorReportModel, IsErrorReport, SpellsError, error_report_model, error_of, error_spelling};
ghost use Rattle.xns_small.specs.ErrorReport.{most_quoted, with_front_quoted};
ghost use Rattle.xns_small.specs.Reading.{answer_model};

use crate::appending::append;
use crate::fault::SmallFault;
use std::alloc::{AllocError, Global};
use xns_idp::known::known_word;
use xns_idp::places::read_word;

/// The most bytes of the offending packet that are quoted: its header and twelve more.
const QUOTED: usize = 42;

/// An Error report, lent from a packet's body (XSIS 028112, Error Protocol).
#[derive(Clone, Copy, Debug, PartialEq, Eq)]
pub struct ErrorReport<'a> {
    /// The error number: one of [`crate::error_number`], or another number.
    pub number: u16,
    /// The error parameter, which some numbers have, such as a greatest length in bytes; else 0.
    pub parameter: u16,
    /// The front of the offending packet, however many bytes there are.
    pub quoted: &'a [u8],
}

impl ErrorReport<'_> {
    /// Does nothing; says to a proof that the numbers of a report are within their types' bounds.
    pub fn known(&self)
        ensures { IsErrorReport (error_report_model self.now) }
    {
        known_word(self.number);
        known_word(self.parameter);
    }
}

/// Reads the body of an Error packet. An `Err` is [`SmallFault::Short`], for under 4 bytes.
pub fn read_error(body: &[u8]) -> Result<ErrorReport<'_>, SmallFault>
    ensures exact { answer_model error_report_model result ≡ error_of body.now }
    ensures found { IfOk result (λ report. SpellsError (error_report_model report) body.now) }
    ensures only { (report : ErrorReportModel) → IsErrorReport report → SpellsError report body.now
        → answer_model error_report_model result ≡ Ok report }
{
    read_report(body)
}

#[tactic(auto, unfolding(crate::specs::ErrorReport::error_of))]
fn read_report(body: &[u8]) -> Result<ErrorReport<'_>, SmallFault>
    ensures { answer_model error_report_model result ≡ error_of body.now }
{
    let have = body.len();
    if have < 4 {
        return Err(SmallFault::Short { have });
    }
    let (_, quoted) = body.split_at(4);
    Ok(ErrorReport {
        number: read_word(body, 0),
        parameter: read_word(body, 2),
        quoted,
    })
}

/// Appends the body of an Error packet to `out`: of the quoted bytes the first 42, or all if there are fewer. The only error
/// is want of memory, after which `out` is as it was.
pub fn write_error(
    _alloc: Global,
    report: &ErrorReport<'_>,
    out: &mut Vec<u8>,
) -> Result<(), AllocError>
    ensures ok { OnOk result (out.new.items ≡ out.old.items ++ error_spelling (with_front_quoted (error_report_model report.now))) }
    ensures err { OnErr result (out.new.items ≡ out.old.items) }
    // Memory is refused only where `out` has no room for the bytes.
    ensures memory { OnErr result (vec_capacity out.old < vec_len out.old + (4 + length (take most_quoted report.now.quoted.now))) }
    // `out` has no less room than before.
    ensures room { vec_capacity out.old ≤ vec_capacity out.new }
{
    let [n0, n1] = report.number.to_be_bytes();
    let [p0, p1] = report.parameter.to_be_bytes();
    append(out, &[n0, n1, p0, p1], front_of(report.quoted))
}

/// The first 42 of the bytes, or all if there are fewer.
fn front_of(quoted: &[u8]) -> &[u8]
    ensures front { result.now ≡ take most_quoted quoted.now }
    ensures short { length result.now ≤ most_quoted }
{
    if quoted.len() <= QUOTED {
        return quoted;
    }
    &quoted[..QUOTED]
}
