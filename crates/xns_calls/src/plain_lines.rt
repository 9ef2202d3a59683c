//! The lines of calls and returns that have no times, no names and few words: each is written into memory of its own, from its end to its
//! front, and appended as a whole.
ghost use Rattle.std.specs.Prelude.{◌≡◌, ◌+◌, ◌*◌, ◌≤◌, ◌++◌, codes, length, None, true};
ghost use Rattle.std.specs.Fmt.{decimal};
ghost use Rattle.xns_dump.specs.Layers.Courier.{callee_text};
ghost use Rattle.xns_lines.specs.Report.{Adds};
ghost use Rattle.xns_calls.specs.Naming.{shown_model};
ghost use Rattle.xns_calls.specs.Telling.{answer_line, call_line};
ghost use Rattle.xns_calls.specs.Texts.{heading_text, letter, line_or_dash, words_behind};
ghost use Rattle.xns_calls.specs.declared.origin.ShownTime.TheVariants.{Hidden};

use crate::heading::Heading;
use crate::line_end::LineEnd;
use crate::origin::ShownTime;
use crate::shown::Shown;
use crate::waiting::Waiting;
use std::alloc::AllocError;
use xns_lines::Report;

/// How many words such a line has at most.
const MOST_WORDS: usize = 16;

/// Whether the line of a message has no times and is told by numbers, with few words.
#[inline(always)]
pub fn is_plain(time: ShownTime, words: &[u16], shown: &Shown) -> bool
    ensures { result ≡ true → (time ≡ Hidden) × (shown_model shown.now ≡ None) × (length words.now ≤ 16) }
{
    match (time, shown) {
        (ShownTime::Hidden, Shown::Numbered) => words.len() <= MOST_WORDS,
        _ => false,
    }
}

/// The letter of a flow in its connection.
#[inline(always)]
fn letter_of(is_behind: bool) -> &'static [u8]
    ensures text { result.now ≡ letter is_behind }
    ensures one { length result.now ≡ 1 }
{
    if is_behind { b"b" } else { b"a" }
}

/// Writes the number of the line or frame, and the name of the flow.
#[inline(always)]
pub fn write_name(end: &mut LineEnd, heading: &Heading<'_>)
    requires { 42 + length end.old ≤ 256 }
    ensures { end.new ≡ decimal heading.now.origin.number ++ codes " " ++ decimal heading.now.connection
        ++ letter heading.now.is_behind ++ end.old }
{
    end.write(letter_of(heading.is_behind));
    end.write_decimal(heading.connection as u64);
    end.write(b" ");
    end.write_decimal(heading.origin.number as u64);
}

/// Writes what a line without a time begins with.
#[inline(always)]
#[tactic(auto, unfolding(crate::specs::Texts::heading_text, crate::specs::TimeTexts::time_text))]
fn write_heading(end: &mut LineEnd, heading: &Heading<'_>)
    requires time { heading.now.origin.time ≡ Hidden }
    requires fits { 42 + length end.old ≤ 256 }
    ensures { end.new ≡ heading_text heading.now ++ end.old }
{
    write_name(end, heading);
}

/// Writes a name and a number.
#[inline(always)]
fn write_field(end: &mut LineEnd, name: &[u8], number: u64)
    requires { length name.now + 20 + length end.old ≤ 256 }
    ensures text { end.new ≡ (name.now ++ decimal number) ++ end.old }
    ensures bound { length end.new ≤ length name.now + 20 + length end.old }
{
    end.write_decimal(number);
    end.write(name);
}

/// Writes words, behind what they are, and ends the line.
fn write_last_words(end: &mut LineEnd, name: &[u8], words: &[u16])
    requires { length name.now + 5 * length words.now + 2 + length end.old ≤ 256 }
    ensures text { end.new ≡ words_behind name.now words.now ++ codes "\n" ++ end.old }
    ensures bound { length end.new ≤ length name.now + 5 * length words.now + 2 + length end.old }
{
    end.write(b"\n");
    end.write_words(words);
    end.write(name);
}

/// Writes what is called.
#[inline(always)]
fn write_callee(end: &mut LineEnd, call: &Waiting)
    requires { 89 + length end.old ≤ 256 }
    ensures text { end.new ≡ callee_text call.now.program call.now.version call.now.procedure ++ end.old }
    ensures bound { length end.new ≤ 89 + length end.old }
{
    write_field(end, b" procedure ", u64::from(call.procedure));
    write_field(end, b" version ", u64::from(call.version));
    write_field(end, b" program ", u64::from(call.program));
}

/// Appends the line of a call.
#[tactic(auto, unfolding(crate::specs::Texts::call_front, crate::specs::Texts::call_end))]
pub fn append_plain_call(
    report: &mut Report,
    heading: &Heading<'_>,
    call: &Waiting,
    words: &[u16],
) -> Result<(), AllocError>
    requires time { heading.now.origin.time ≡ Hidden }
    requires few { length words.now ≤ 16 }
    ensures { Adds result report.old report.new (call_line heading.now call.now.transaction
        (callee_text call.now.program call.now.version call.now.procedure ++ words_behind (codes " args ") words.now) None) }
{
    let mut end = LineEnd::new();
    write_last_words(&mut end, b" args ", words);
    write_callee(&mut end, call);
    write_field(&mut end, b" call ", u64::from(call.transaction));
    write_heading(&mut end, heading);
    report.append(end.as_slice())
}

/// Writes the number of the line or frame of a call, or a dash.
#[inline(always)]
fn write_line_or_dash(end: &mut LineEnd, of: &Option<Waiting>)
    requires { 20 + length end.old ≤ 256 }
    ensures text { end.new ≡ line_or_dash of.now ++ end.old }
    ensures bound { length end.new ≤ 20 + length end.old }
{
    match of {
        Some(waiting) => end.write_decimal(waiting.number as u64),
        None => end.write(b"-"),
    }
}

/// Appends the line of a return.
#[tactic(auto, unfolding(crate::specs::Texts::answer_front, crate::specs::Texts::answer_end, crate::specs::TimeTexts::took_text))]
pub fn append_plain_return(
    report: &mut Report,
    heading: &Heading<'_>,
    transaction: u16,
    of: &Option<Waiting>,
    words: &[u16],
) -> Result<(), AllocError>
    requires time { heading.now.origin.time ≡ Hidden }
    requires few { length words.now ≤ 16 }
    ensures { Adds result report.old report.new
        (answer_line heading.now (codes " return ") transaction of.now (words_behind (codes " results ") words.now) None) }
{
    let mut end = LineEnd::new();
    write_last_words(&mut end, b" results ", words);
    write_line_or_dash(&mut end, of);
    end.write(b" of ");
    write_field(&mut end, b" return ", u64::from(transaction));
    write_heading(&mut end, heading);
    report.append(end.as_slice())
}
