//! What is printed of what is heard.
ghost use Rattle.std.specs.Prelude.{◌≡◌, ◌||◌, ◌++◌, codes, None, OnOk};
ghost use Rattle.std.specs.Fmt.{decimal};
ghost use Rattle.xns_dump.specs.Layers.Courier.{callee_text};
ghost use Rattle.courier_messages.specs.Head.{with_words};
ghost use Rattle.xns_lines.specs.Report.{Adds};
ghost use Rattle.xns_calls.specs.Naming.{named_abort, named_call, named_return};
ghost use Rattle.xns_calls.specs.Telling.{after_message, answer_line, call_left, call_line, calls_after, heard_text, is_fault, asked_call, message_line};
ghost use Rattle.xns_calls.specs.Texts.{words_behind};
ghost use Rattle.xns_calls.specs.Unanswered.{waiting_calls};

use crate::heading::Heading;
use crate::heard::Heard;
use crate::naming::{name_abort, name_call, name_return};
use crate::scratch::Scratch;
use crate::shown::Shown;
use crate::texts::{
    append_answer_end, append_answer_front, append_call, append_error, append_refused_line,
    append_return,
};
use crate::waiting::Waiting;
use courier_messages::{Head, PiecedMessage, WholeMessage};
use std::alloc::{AllocError, Global};
use xns_lines::{Page, Report};

/// Prints what is heard.
pub fn tell(
    scratch: &mut Scratch,
    page: &mut Page,
    heading: &Heading<'_>,
    own: &mut Option<Waiting>,
    asked: &mut Option<Waiting>,
    heard: Heard,
) -> Result<(), AllocError>
    ensures text { Adds result page.old.text page.new.text (heard_text heading.now (waiting_calls own.old asked.old) heard) }
    ensures refused { OnOk result (page.new.is_refused ≡ (page.old.is_refused || is_fault heard)) }
    ensures calls { OnOk result (waiting_calls own.new asked.new ≡ calls_after heading.now (waiting_calls own.old asked.old) heard) }
{
    match heard {
        Heard::Nothing => Ok(()),
        Heard::Message(message) => tell_message(
            scratch,
            &mut page.text,
            heading,
            own,
            asked,
            &message,
        ),
        Heard::Fault(fault) => {
            append_refused_line(&mut page.text, heading, fault)?;
            page.is_refused = true;
            Ok(())
        }
    }
}

/// Prints a message that came in one piece. A call waits for its answer then, and the call of an answer no longer.
#[inline(always)]
pub fn tell_whole(
    scratch: &mut Scratch,
    report: &mut Report,
    heading: &Heading<'_>,
    own: &mut Option<Waiting>,
    asked: &mut Option<Waiting>,
    message: WholeMessage<'_>,
) -> Result<(), AllocError>
    ensures text { Adds result report.old report.new (message_line heading.now (waiting_calls own.old asked.old) message.entry) }
    ensures calls { OnOk result (waiting_calls own.new asked.new ≡ after_message heading.now (waiting_calls own.old asked.old) message.entry) }
{
    let head = message.head();
    let alloc = scratch.alloc;
    let words = scratch.words_of_whole(message)?;
    tell_words(alloc, report, heading, own, asked, head, words)
}

/// Prints a message. A call waits for its answer then, and the call of an answer no longer.
fn tell_message(
    scratch: &mut Scratch,
    report: &mut Report,
    heading: &Heading<'_>,
    own: &mut Option<Waiting>,
    asked: &mut Option<Waiting>,
    message: &PiecedMessage,
) -> Result<(), AllocError>
    ensures text { Adds result report.old report.new (message_line heading.now (waiting_calls own.old asked.old) message.now) }
    ensures calls { OnOk result (waiting_calls own.new asked.new ≡ after_message heading.now (waiting_calls own.old asked.old) message.now) }
{
    let alloc = scratch.alloc;
    let words = scratch.words_of(message)?;
    tell_words(alloc, report, heading, own, asked, message.head(), words)
}

/// Prints the message of these words.
fn tell_words(
    alloc: Global,
    report: &mut Report,
    heading: &Heading<'_>,
    own: &mut Option<Waiting>,
    asked: &mut Option<Waiting>,
    head: Head,
    words: &[u16],
) -> Result<(), AllocError>
    ensures text { Adds result report.old report.new (message_line heading.now (waiting_calls own.old asked.old) (with_words head words.now)) }
    ensures calls { OnOk result (waiting_calls own.new asked.new ≡ after_message heading.now (waiting_calls own.old asked.old) (with_words head words.now)) }
{
    match head {
        Head::Call {
            transaction,
            program,
            version,
            procedure,
        } => {
            let call = Waiting {
                transaction,
                program,
                version,
                procedure,
                number: heading.origin.number,
                time: heading.origin.time,
            };
            *own = Some(call);
            tell_call(alloc, report, heading, &call, words)
        }
        Head::Reject {
            transaction,
            reason,
        } => {
            let of = answer(asked, transaction);
            tell_reject(report, heading, of, transaction, reason, words)
        }
        Head::Return { transaction } => {
            let of = answer(asked, transaction);
            tell_return(alloc, report, heading, of, transaction, words)
        }
        Head::Abort { transaction, error } => {
            let of = answer(asked, transaction);
            tell_abort(alloc, report, heading, of, transaction, error, words)
        }
    }
}

/// Prints a call.
fn tell_call(
    alloc: Global,
    report: &mut Report,
    heading: &Heading<'_>,
    call: &Waiting,
    words: &[u16],
) -> Result<(), AllocError>
    ensures { Adds result report.old report.new (call_line heading.now call.now.transaction
        (callee_text call.now.program call.now.version call.now.procedure ++ words_behind (codes " args ") words.now)
        (named_call heading.now.origin.programs call.now.program call.now.version call.now.procedure words.now)) }
{
    let shown = name_call(alloc, heading.origin.programs, call, words)?;
    append_call(report, heading, call, words, &shown)
}

/// Prints a reject.
#[inline(never)]
fn tell_reject(
    report: &mut Report,
    heading: &Heading<'_>,
    of: Option<Waiting>,
    transaction: u16,
    reason: u16,
    words: &[u16],
) -> Result<(), AllocError>
    ensures { Adds result report.old report.new (answer_line heading.now (codes " reject ") transaction of
        (codes " reason " ++ decimal reason ++ words_behind (codes " words ") words.now) None) }
{
    append_answer_front(report, heading, b" reject ", transaction, of)?;
    append_error(
        report,
        b" reason ",
        reason,
        b" words ",
        words,
        &Shown::Numbered,
    )?;
    append_answer_end(report, of, heading.origin.time, &Shown::Numbered)
}

/// Prints a return.
fn tell_return(
    alloc: Global,
    report: &mut Report,
    heading: &Heading<'_>,
    of: Option<Waiting>,
    transaction: u16,
    words: &[u16],
) -> Result<(), AllocError>
    ensures { Adds result report.old report.new (answer_line heading.now (codes " return ") transaction of
        (words_behind (codes " results ") words.now) (named_return heading.now.origin.programs of words.now)) }
{
    let shown = name_return(alloc, heading.origin.programs, of, words)?;
    append_return(report, heading, transaction, &of, words, &shown)
}

/// Prints an abort.
#[inline(never)]
fn tell_abort(
    alloc: Global,
    report: &mut Report,
    heading: &Heading<'_>,
    of: Option<Waiting>,
    transaction: u16,
    error: u16,
    words: &[u16],
) -> Result<(), AllocError>
    ensures { Adds result report.old report.new (answer_line heading.now (codes " abort ") transaction of
        (codes " error " ++ decimal error ++ words_behind (codes " args ") words.now)
        (named_abort heading.now.origin.programs of error words.now)) }
{
    let shown = name_abort(alloc, heading.origin.programs, of, error, words)?;
    append_answer_front(report, heading, b" abort ", transaction, of)?;
    append_error(report, b" error ", error, b" args ", words, &shown)?;
    append_answer_end(report, of, heading.origin.time, &shown)
}

/// The call that waits for an answer of this transaction, which no longer waits then.
fn answer(asked: &mut Option<Waiting>, transaction: u16) -> Option<Waiting>
    ensures call { result ≡ asked_call asked.old transaction }
    ensures left { asked.new ≡ call_left asked.old transaction }
{
    match *asked {
        Some(waiting) if waiting.transaction == transaction => {
            *asked = None;
            Some(waiting)
        }
        _ => None,
    }
}
