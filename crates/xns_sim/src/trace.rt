//! The text of a play of calls.
ghost use Rattle.std.specs.Prelude.{◌++◌, codes, map};
ghost use Rattle.std.specs.Fmt.{decimal};
ghost use Rattle.courier_types.specs.Value.{value_model};
ghost use Rattle.courier_calls.specs.Calls.{seen_model};
ghost use Rattle.xns_lines.specs.Report.{Adds};
ghost use Rattle.xns_sim.specs.Sim.Trace.{count_line, outcome_line, outcome_lines, seen_text, trace_text, value_text};

use courier_calls::Seen;
use courier_types::Value;
use std::alloc::AllocError;
use xns_lines::Report;
use xns_lines::numbers::{append_decimal, append_word_list};

/// The trace of a play of calls, as numbers and outcomes.
#[derive(Clone, Copy)]
pub(crate) struct Played<'a> {
    /// How many calls there were to make.
    pub(crate) calls: usize,
    /// How many calls the server decided.
    pub(crate) carried: usize,
    /// The outcomes that the caller saw.
    pub(crate) seen: &'a [Seen],
    /// The tally's total.
    pub(crate) total: u32,
    /// How many packets were sent.
    pub(crate) packets: usize,
}

/// Appends the text of a play.
#[tactic(auto, unfolding(crate::specs::Sim::Trace::trace_text))]
pub(crate) fn append_trace(text: &mut Report, played: &Played<'_>) -> Result<(), AllocError>
    ensures { Adds result text.old text.new (trace_text played.now.calls played.now.carried (map seen_model played.now.seen.now)
        played.now.total played.now.packets) }
{
    append_count(text, b"calls ", played.calls)?;
    append_count(text, b"carried ", played.carried)?;
    append_outcomes(text, played.seen)?;
    append_count(text, b"total ", played.total as usize)?;
    append_count(text, b"packets ", played.packets)
}

/// Appends a name and a number, as a line.
#[tactic(auto, unfolding(crate::specs::Sim::Trace::count_line))]
fn append_count(text: &mut Report, name: &[u8], number: usize) -> Result<(), AllocError>
    ensures { Adds result text.old text.new (count_line name.now number) }
{
    text.append(name)?;
    append_decimal(text, number)?;
    text.append(b"\n")
}

/// Appends the lines of outcomes, which count from 1.
fn append_outcomes(text: &mut Report, outcomes: &[Seen]) -> Result<(), AllocError>
    ensures { Adds result text.old text.new (outcome_lines 1 (map seen_model outcomes.now)) }
{
    for (index, seen) in outcomes.iter().enumerate() {
        append_outcome(text, index + 1, seen)?;
    }
    Ok(())
}

#[tactic(auto, unfolding(crate::specs::Sim::Trace::outcome_line))]
fn append_outcome(text: &mut Report, number: usize, seen: &Seen) -> Result<(), AllocError>
    ensures { Adds result text.old text.new (outcome_line number (seen_model seen.now)) }
{
    append_decimal(text, number)?;
    append_seen(text, seen)?;
    text.append(b"\n")
}

#[tactic(auto, unfolding(crate::specs::Sim::Trace::seen_text))]
fn append_seen(text: &mut Report, seen: &Seen) -> Result<(), AllocError>
    ensures { Adds result text.old text.new (seen_text (seen_model seen.now)) }
{
    match seen {
        Seen::Returned(value) => {
            text.append(b" returned ")?;
            append_value(text, value)
        }
        Seen::Aborted(error, value) => {
            append_kind(text, b" aborted ", *error)?;
            append_value(text, value)
        }
        Seen::Rejected(reason, words) => {
            append_kind(text, b" rejected ", *reason)?;
            append_word_list(text, words.as_slice())
        }
    }
}

/// Appends a name, a number and a space.
fn append_kind(text: &mut Report, name: &[u8], number: u16) -> Result<(), AllocError>
    ensures { Adds result text.old text.new (name.now ++ decimal number ++ codes " ") }
{
    text.append(name)?;
    append_decimal(text, usize::from(number))?;
    text.append(b" ")
}

/// Appends a value of the tally's outcomes, which is a long cardinal.
fn append_value(text: &mut Report, value: &Value) -> Result<(), AllocError>
    ensures { Adds result text.old text.new (value_text (value_model value.now)) }
{
    match value {
        Value::LongCardinal(number) => append_decimal(text, *number as usize),
        _ => Ok(()),
    }
}
