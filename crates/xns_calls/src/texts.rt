//! The lines of the output, a function for each.
ghost use Rattle.std.specs.Prelude.{◌≡◌, ◌++◌, codes, length};
ghost use Rattle.std.specs.Fmt.{decimal};
ghost use Rattle.xns_idp.specs.Packet.{packet_model};
ghost use Rattle.xns_dump.specs.Layers.Text.{address_text};
ghost use Rattle.xns_lines.specs.Report.{Adds};
ghost use Rattle.xns_lines.specs.Text.{hex_word};
ghost use Rattle.xns_dump.specs.Layers.Courier.{callee_text};
ghost use Rattle.xns_calls.specs.Naming.{named_or, reason_name, shown_model, unread_text};
ghost use Rattle.xns_calls.specs.Telling.{answer_line, call_line};
ghost use Rattle.xns_calls.specs.Texts.{answer_end, answer_front, call_end, end_text, flow_line, heading_text, missing_line};
ghost use Rattle.xns_calls.specs.Texts.{reason_text, refused_line, repeats_line, words_behind};

use crate::heading::Heading;
use crate::line_end::LineEnd;
use crate::origin::ShownTime;
use crate::plain_lines::{append_plain_call, append_plain_return, is_plain, write_name};
use crate::shown::Shown;
use crate::time_texts::{append_time, append_took};
use crate::waiting::Waiting;
use call_texts::UnreadReason;
use courier_messages::{MessageFault, SessionFault};
use std::alloc::AllocError;
use std::ops::Range;
use xns_dump::layers::courier::{append_callee, append_field};
use xns_dump::layers::text::write_address;
use xns_idp::{Address, Packet};
use xns_lines::numbers::{append_decimal, append_decimal_u64, append_word_list};
use xns_lines::{Report, write_few_digits};
use xns_spp::Header;

/// Appends the time of the frame, its number or that of the line, and the name of the flow.
#[tactic(auto, unfolding(crate::specs::Texts::heading_text))]
fn append_heading(report: &mut Report, heading: &Heading<'_>) -> Result<(), AllocError>
    ensures { Adds result report.old report.new (heading_text heading.now) }
{
    append_time(report, heading.origin.time)?;
    let mut end = LineEnd::new();
    write_name(&mut end, heading);
    report.append(end.as_slice())
}

/// Appends the line of a flow that begins.
#[tactic(auto, unfolding(crate::specs::Texts::flow_line, crate::specs::Texts::heading_text))]
pub fn append_flow_line(
    report: &mut Report,
    heading: &Heading<'_>,
    packet: &Packet<'_>,
    header: &Header,
) -> Result<(), AllocError>
    ensures { Adds result report.old report.new (flow_line heading.now (packet_model packet.now) header.now) }
{
    let mut ends = [0; 84];
    write_ends(packet, header, &mut ends);
    let mut end = LineEnd::new();
    end.write(&ends);
    write_name(&mut end, heading);
    append_time(report, heading.origin.time)?;
    report.append(end.as_slice())
}

/// Writes both ends of a flow, up to the end of the line.
fn write_ends(packet: &Packet<'_>, header: &Header, text: &mut [u8])
    requires { length text.old ≡ 84 }
    ensures { text.new ≡ end_text (codes " flow to ") packet.now.target header.now.target_id
        ++ end_text (codes " from ") packet.now.source header.now.source_id ++ codes "\n" }
{
    text[..9].copy_from_slice(b" flow to ");
    write_end(&packet.target, header.target_id, &mut text[9..43]);
    text[43..49].copy_from_slice(b" from ");
    write_end(&packet.source, header.source_id, &mut text[49..83]);
    text[83] = b'\n';
}

/// Writes an end of a flow: its address and its connection identifier.
fn write_end(address: &Address, identifier: u16, text: &mut [u8])
    requires { length text.old ≡ 34 }
    ensures { text.new ≡ address_text address.now ++ codes " id " ++ hex_word identifier }
{
    write_address(address, &mut text[..26]);
    text[26..30].copy_from_slice(b" id ");
    write_few_digits(&identifier.to_be_bytes(), &mut text[30..]);
}

/// Appends the line of items that had not come by then.
#[tactic(auto, unfolding(crate::specs::Texts::missing_line))]
pub fn append_missing_line(
    report: &mut Report,
    heading: &Heading<'_>,
    missing: Range<u64>,
) -> Result<(), AllocError>
    ensures { Adds result report.old report.new (missing_line heading.now missing.start missing.end) }
{
    append_heading(report, heading)?;
    append_item_number(report, b" missing ", missing.start)?;
    append_item_number(report, b" to ", missing.end.saturating_sub(1))?;
    report.append(b"\n")
}

/// Appends the line that tells of 64 repeats in a row.
#[tactic(auto, unfolding(crate::specs::Texts::repeats_line))]
pub fn append_repeats_line(report: &mut Report, heading: &Heading<'_>) -> Result<(), AllocError>
    ensures { Adds result report.old report.new (repeats_line heading.now) }
{
    append_heading(report, heading)?;
    report.append(b" repeats\n")
}

/// Appends a name and the number of an item.
fn append_item_number(report: &mut Report, name: &[u8], number: u64) -> Result<(), AllocError>
    ensures { Adds result report.old report.new (name.now ++ decimal number) }
{
    report.append(name)?;
    append_decimal_u64(report, number)
}

/// Appends why a call is not named, and ends its line.
#[tactic(auto, unfolding(crate::specs::Texts::call_end))]
fn append_call_end(report: &mut Report, shown: &Shown) -> Result<(), AllocError>
    ensures { Adds result report.old report.new (call_end (shown_model shown.now)) }
{
    append_unread(report, shown)?;
    report.append(b"\n")
}

/// Appends what a call says: by name, or the numbers and the words.
fn append_arguments(
    report: &mut Report,
    call: &Waiting,
    words: &[u16],
    shown: &Shown,
) -> Result<(), AllocError>
    ensures { Adds result report.old report.new
        (named_or (callee_text call.now.program call.now.version call.now.procedure ++ words_behind (codes " args ") words.now)
        (shown_model shown.now)) }
{
    if let Shown::Named(text) = shown {
        return append_named(report, text);
    }
    append_callee(report, call.program, call.version, call.procedure)?;
    append_words(report, b" args ", words)
}

/// Appends the line of a call.
#[tactic(auto, unfolding(crate::specs::Texts::call_front))]
pub fn append_call(
    report: &mut Report,
    heading: &Heading<'_>,
    call: &Waiting,
    words: &[u16],
    shown: &Shown,
) -> Result<(), AllocError>
    ensures { Adds result report.old report.new (call_line heading.now call.now.transaction
        (callee_text call.now.program call.now.version call.now.procedure ++ words_behind (codes " args ") words.now)
        (shown_model shown.now)) }
{
    if is_plain(heading.origin.time, words, shown) {
        return append_plain_call(report, heading, call, words);
    }
    append_heading(report, heading)?;
    append_field(report, b" call ", call.transaction)?;
    append_arguments(report, call, words, shown)?;
    append_call_end(report, shown)
}

/// Appends the line of a return.
pub fn append_return(
    report: &mut Report,
    heading: &Heading<'_>,
    transaction: u16,
    of: &Option<Waiting>,
    words: &[u16],
    shown: &Shown,
) -> Result<(), AllocError>
    ensures { Adds result report.old report.new (answer_line heading.now (codes " return ") transaction of.now
        (words_behind (codes " results ") words.now) (shown_model shown.now)) }
{
    let time = heading.origin.time;
    if is_plain(time, words, shown) {
        return append_plain_return(report, heading, transaction, of, words);
    }
    append_answer_front(report, heading, b" return ", transaction, *of)?;
    append_results(report, words, shown)?;
    append_answer_end(report, *of, time, shown)
}

/// Appends what a return says: by name, or the words.
fn append_results(report: &mut Report, words: &[u16], shown: &Shown) -> Result<(), AllocError>
    ensures { Adds result report.old report.new (named_or (words_behind (codes " results ") words.now) (shown_model shown.now)) }
{
    if let Shown::Named(text) = shown {
        return append_named(report, text);
    }
    append_words(report, b" results ", words)
}

/// Appends what an abort or a reject says: by name, or a number and the words, each behind what it is.
pub fn append_error(
    report: &mut Report,
    kind: &[u8],
    number: u16,
    name: &[u8],
    words: &[u16],
    shown: &Shown,
) -> Result<(), AllocError>
    ensures { Adds result report.old report.new
        (named_or (kind.now ++ decimal number ++ words_behind name.now words.now) (shown_model shown.now)) }
{
    if let Shown::Named(text) = shown {
        return append_named(report, text);
    }
    append_field(report, kind, number)?;
    append_words(report, name, words)
}

/// Appends a text by name.
fn append_named(report: &mut Report, text: &[u8]) -> Result<(), AllocError>
    ensures { Adds result report.old report.new (codes " " ++ text.now) }
{
    report.append(b" ")?;
    report.append(text)
}

/// Appends words behind what they are.
fn append_words(report: &mut Report, name: &[u8], words: &[u16]) -> Result<(), AllocError>
    ensures { Adds result report.old report.new (words_behind name.now words.now) }
{
    report.append(name)?;
    append_word_list(report, words)
}

/// Appends which word goes on no value, and why, where that is why a message is not named.
fn append_unread(report: &mut Report, shown: &Shown) -> Result<(), AllocError>
    ensures { Adds result report.old report.new (unread_text (shown_model shown.now)) }
{
    let Shown::Unread(unread) = shown else {
        return Ok(());
    };
    report.append(b" unread ")?;
    append_decimal(report, unread.place)?;
    report.append(b" ")?;
    report.append(name_of(unread.reason))
}

/// The name of a reason.
fn name_of(reason: UnreadReason) -> &'static [u8]
    ensures { result.now ≡ reason_name reason }
{
    match reason {
        UnreadReason::Truncated => b"Truncated",
        UnreadReason::NotBoolean => b"NotBoolean",
        UnreadReason::NotListed => b"NotListed",
        UnreadReason::OverMaximum => b"OverMaximum",
        UnreadReason::Trailing => b"Trailing",
        UnreadReason::LongText => b"LongText",
    }
}

/// Appends how long a call took and why its answer is not named, and ends the line.
#[tactic(auto, unfolding(crate::specs::Texts::answer_end))]
pub fn append_answer_end(
    report: &mut Report,
    of: Option<Waiting>,
    time: ShownTime,
    shown: &Shown,
) -> Result<(), AllocError>
    ensures { Adds result report.old report.new (answer_end of time (shown_model shown.now)) }
{
    append_took(report, of, time)?;
    append_unread(report, shown)?;
    report.append(b"\n")
}

/// Appends what an answer begins with: the number of the line or frame of its call stands behind its transaction, or a dash.
#[tactic(auto, unfolding(crate::specs::Texts::answer_front))]
pub fn append_answer_front(
    report: &mut Report,
    heading: &Heading<'_>,
    name: &[u8],
    transaction: u16,
    of: Option<Waiting>,
) -> Result<(), AllocError>
    ensures { Adds result report.old report.new (answer_front heading.now name.now transaction of) }
{
    append_heading(report, heading)?;
    append_field(report, name, transaction)?;
    report.append(b" of ")?;
    match of {
        Some(waiting) => append_decimal(report, waiting.number),
        None => report.append(b"-"),
    }
}

/// Appends the line of what is no message or no version range.
#[tactic(auto, unfolding(crate::specs::Texts::refused_line))]
pub fn append_refused_line(
    report: &mut Report,
    heading: &Heading<'_>,
    fault: SessionFault,
) -> Result<(), AllocError>
    ensures { Adds result report.old report.new (refused_line heading.now fault) }
{
    append_heading(report, heading)?;
    report.append(b" refused ")?;
    append_reason(report, fault)?;
    report.append(b"\n")
}

/// Appends why; no other fault comes of items of datastream 0.
#[tactic(auto, unfolding(crate::specs::Texts::reason_text))]
fn append_reason(report: &mut Report, fault: SessionFault) -> Result<(), AllocError>
    ensures { Adds result report.old report.new (reason_text fault) }
{
    match fault {
        SessionFault::BadVersions => report.append(b"BadVersions"),
        SessionFault::NoCommonVersion => report.append(b"NoCommonVersion"),
        SessionFault::BadMessage(MessageFault::OddLength) => report.append(b"OddLength"),
        SessionFault::BadMessage(MessageFault::ShortMessage) => report.append(b"ShortMessage"),
        SessionFault::BadMessage(MessageFault::UnknownKind { found }) => {
            append_field(report, b"UnknownKind ", found)
        }
        SessionFault::BadMessage(MessageFault::TooLong) => report.append(b"TooLong"),
        _ => Ok(()),
    }
}
