//! The lines of Courier messages, a function for each.
ghost use Rattle.std.specs.Prelude.{◌++◌};
ghost use Rattle.std.specs.Fmt.{decimal};
ghost use Rattle.xns_dump.specs.Layers.Courier.{callee_text, courier_text, message_text};
ghost use Rattle.xns_lines.specs.Text.{words_text};
ghost use Rattle.xns_lines.specs.Report.{Adds};

use crate::layers::line::{LineText, append_line};
use crate::layers::text::{DataWords, append_named};
use courier_messages::{Message, MessageRefusal, Words, read_message};
use std::alloc::{AllocError, Global};
use xns_lines::Report;
use xns_lines::numbers::{append_decimal_u64, append_word_list};

/// Appends the line of the data at the end of a message: the message that the data read as, or their words.
#[tactic(auto, unfolding(crate::specs::Layers::Courier::courier_text))]
pub(crate) fn append_courier(
    alloc: Global,
    report: &mut Report,
    number: usize,
    content: &[u8],
) -> Result<(), AllocError>
    ensures { Adds result report.old report.new (courier_text number content.now) }
{
    match read_message(alloc, content) {
        Ok(message) => append_line(report, number, &message),
        Err(MessageRefusal::Fault(_)) => append_line(report, number, &DataWords { content }),
        Err(MessageRefusal::NoMemory) => Err(AllocError),
    }
}

/// The fields of a message, and its words.
impl LineText for Message {
    ghost text = { message_text };

    #[tactic(auto, unfolding(crate::specs::Layers::Courier::message_text))]
    fn append_text(&self, report: &mut Report) -> Result<(), AllocError> {
        match self {
            Message::Call {
                transaction,
                program,
                version,
                procedure,
                words,
            } => {
                append_field(report, b" call ", *transaction)?;
                append_callee(report, *program, *version, *procedure)?;
                append_words(report, b" args ", words)
            }
            Message::Reject {
                transaction,
                reason,
                words,
            } => {
                append_field(report, b" reject ", *transaction)?;
                append_field(report, b" reason ", *reason)?;
                append_words(report, b" words ", words)
            }
            Message::Return { transaction, words } => {
                append_field(report, b" return ", *transaction)?;
                append_words(report, b" results ", words)
            }
            Message::Abort {
                transaction,
                error,
                words,
            } => {
                append_field(report, b" abort ", *transaction)?;
                append_field(report, b" error ", *error)?;
                append_words(report, b" args ", words)
            }
        }
    }
}

/// Appends a name and a word as a number.
#[inline(always)]
pub fn append_field(report: &mut Report, name: &[u8], word: u16) -> Result<(), AllocError>
    ensures { Adds result report.old report.new (name.now ++ decimal word) }
{
    append_named(report, name, usize::from(word))
}

/// Appends a name and words.
fn append_words(report: &mut Report, name: &[u8], words: &Words) -> Result<(), AllocError>
    ensures { Adds result report.old report.new (name.now ++ words_text words.now) }
{
    report.append(name)?;
    append_word_list(report, words.as_slice())
}

/// Appends the program, the version and the procedure of a call.
#[tactic(auto, unfolding(crate::specs::Layers::Courier::callee_text))]
pub fn append_callee(
    report: &mut Report,
    program: u32,
    version: u16,
    procedure: u16,
) -> Result<(), AllocError>
    ensures { Adds result report.old report.new (callee_text program version procedure) }
{
    report.append(b" program ")?;
    append_decimal_u64(report, u64::from(program))?;
    append_field(report, b" version ", version)?;
    append_field(report, b" procedure ", procedure)
}
