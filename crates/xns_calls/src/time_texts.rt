//! Times as text.
ghost use Rattle.std.specs.Prelude.{◌<◌};
ghost use Rattle.xns_lines.specs.Report.{Adds};
ghost use Rattle.xns_calls.specs.TimeTexts.{digits_text, fraction_text, from_to_text, seconds_text, time_text, took_since, took_text};

use crate::origin::ShownTime;
use crate::waiting::Waiting;
use std::alloc::AllocError;
use xns_lines::Report;
use xns_lines::numbers::append_decimal_u64;

/// Nanoseconds of a second.
const SECOND: u64 = 1_000_000_000;
/// Nanoseconds of a tenth of a second.
const TENTH: u64 = 100_000_000;

/// Appends what stands before a line: the time of its frame, or a dash where it has none.
#[tactic(auto, unfolding(crate::specs::TimeTexts::time_text))]
pub fn append_time(report: &mut Report, time: ShownTime) -> Result<(), AllocError>
    ensures { Adds result report.old report.new (time_text time) }
{
    match time {
        ShownTime::Hidden => Ok(()),
        ShownTime::Unknown => report.append(b"- "),
        ShownTime::Known {
            nanoseconds,
            since,
            digits,
        } => {
            append_from_to(report, digits, since, nanoseconds)?;
            report.append(b" ")
        }
    }
}

/// Appends what stands behind an answer: how long its call took, or a dash where that is not known.
#[tactic(auto, unfolding(crate::specs::TimeTexts::took_text))]
pub fn append_took(
    report: &mut Report,
    of: Option<Waiting>,
    time: ShownTime,
) -> Result<(), AllocError>
    ensures { Adds result report.old report.new (took_text of time) }
{
    match time {
        ShownTime::Hidden => Ok(()),
        _ => {
            report.append(b" took ")?;
            match of {
                Some(waiting) => append_took_since(report, waiting.time, time),
                None => report.append(b"-"),
            }
        }
    }
}

/// Appends the time from one frame to another, or a dash where one of them has none.
fn append_took_since(
    report: &mut Report,
    call: ShownTime,
    answer: ShownTime,
) -> Result<(), AllocError>
    ensures { Adds result report.old report.new (took_since call answer) }
{
    match (call, answer) {
        (
            ShownTime::Known {
                nanoseconds: from,
                ..
            },
            ShownTime::Known {
                nanoseconds: to,
                digits,
                ..
            },
        ) => append_from_to(report, digits, from, to),
        _ => report.append(b"-"),
    }
}

/// Appends the time from one to another, in seconds, with a sign where it is negative.
#[tactic(auto, unfolding(crate::specs::TimeTexts::from_to_text))]
fn append_from_to(report: &mut Report, digits: u8, from: u64, to: u64) -> Result<(), AllocError>
    ensures { Adds result report.old report.new (from_to_text digits from to) }
{
    if to < from {
        report.append(b"-")?;
        return append_seconds(report, digits, from - to);
    }
    append_seconds(report, digits, to - from)
}

/// Appends nanoseconds in seconds, with so many digits behind the point.
fn append_seconds(report: &mut Report, digits: u8, nanoseconds: u64) -> Result<(), AllocError>
    ensures { Adds result report.old report.new (seconds_text digits nanoseconds) }
{
    append_decimal_u64(report, nanoseconds / SECOND)?;
    append_fraction(report, digits, nanoseconds % SECOND)
}

/// Appends the part of a second, which has so many billionths, with the point before it.
fn append_fraction(report: &mut Report, digits: u8, billionths: u64) -> Result<(), AllocError>
    requires { billionths < 1000000000 }
    ensures { Adds result report.old report.new (fraction_text digits billionths) }
{
    if digits == 0 {
        return Ok(());
    }
    report.append(b".")?;
    append_digits(report, digits, billionths)
}

/// Appends so many digits.
fn append_digits(report: &mut Report, digits: u8, billionths: u64) -> Result<(), AllocError>
    requires { billionths < 1000000000 }
    ensures { Adds result report.old report.new (digits_text digits billionths) }
{
    if digits == 0 {
        return Ok(());
    }
    append_decimal_u64(report, billionths / TENTH)?;
    append_digits(report, digits - 1, billionths % TENTH * 10)
}
