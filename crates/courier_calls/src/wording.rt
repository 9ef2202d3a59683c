//! The words of messages that go out.
ghost use Rattle.std.specs.Prelude.{◌≡◌, [], ◌≤◌, ◌*◌, length, IfOk, Ok};
ghost use Rattle.courier_messages.specs.Message.{message_words, most_words};
ghost use Rattle.courier_calls.specs.Table.{entry_model, procedure_model};
ghost use Rattle.courier_calls.specs.Calls.{AllowsOutcome, outcome_model, seen_of, unlisted_model, arguments_model, raw_call};
ghost use Rattle.courier_calls.specs.Written.{IsOfArguments};
ghost use Rattle.courier_calls.specs.Calls.{SeenModel, invalid_arguments};
ghost use Rattle.courier_calls.specs.Answers.{answer_message};
ghost use Rattle.courier_messages.specs.RawCalls.{call_message};

use crate::call::{Call, Outcome, Written};
use crate::table::{Entry, Procedure, Unlisted};
use courier_messages::Spare;
use courier_messages::kinds::{ABORT, CALL, REJECT, RETURN};
use courier_types::write;
use std::alloc::{AllocError, Global};

/// Why a call is rejected: its program is not listed.
const NO_SUCH_PROGRAM: u16 = 0;

/// Why a call is rejected: its program is not listed in this version.
const NO_SUCH_VERSION: u16 = 1;

/// Why a call is rejected: its program has no such procedure.
const NO_SUCH_PROCEDURE: u16 = 2;

/// Why a call is rejected: its words are no arguments of the procedure.
const INVALID_ARGUMENTS: u16 = 3;

/// The words of the answer to a call that was carried out, in the spare room.
pub fn outcome_words(
    alloc: Global,
    entry: &Entry,
    procedure: &Procedure,
    transaction: u16,
    outcome: &Outcome,
    spare: &mut Spare,
) -> Result<Vec<u16>, AllocError>
    requires { AllowsOutcome (Ok (entry_model entry.now, procedure_model procedure.now)) (outcome_model outcome.now) }
    ensures words { IfOk result (λ w. w.items ≡ message_words (answer_message transaction (seen_of (outcome_model outcome.now)))) }
    ensures short { IfOk result (λ w. length w.items ≤ most_words) }
{
    let mut words = spare.take(alloc)?;
    match outcome {
        Outcome::Returned(value) => {
            words.extend_from_slice(&[RETURN, transaction])?;
            write(alloc, &procedure.results, value, &mut words)?;
        }
        Outcome::Aborted(error, value) => {
            words.extend_from_slice(&[ABORT, transaction, *error])?;
            let Some(listed) = entry.error(*error) else {
                unreachable!()
            };
            write(alloc, &listed.arguments, value, &mut words)?;
        }
    }
    Ok(words)
}

/// The words of the reject of a call that isn't listed.
pub fn unlisted_words(
    alloc: Global,
    transaction: u16,
    unlisted: Unlisted,
) -> Result<Vec<u16>, AllocError>
    ensures words { IfOk result (λ w. w.items ≡ message_words (answer_message transaction (unlisted_model unlisted))) }
    ensures short { IfOk result (λ w. length w.items ≤ most_words) }
{
    match unlisted {
        Unlisted::Program => Vec::from_slice(alloc, &[REJECT, transaction, NO_SUCH_PROGRAM]),
        Unlisted::Version { low, high } => Vec::from_slice(
            alloc,
            &[REJECT, transaction, NO_SUCH_VERSION, low, high],
        ),
        Unlisted::Procedure => Vec::from_slice(alloc, &[REJECT, transaction, NO_SUCH_PROCEDURE]),
    }
}

/// The words of the reject of a call whose arguments were not read.
pub fn unread_words(alloc: Global, transaction: u16) -> Result<Vec<u16>, AllocError>
    ensures words { IfOk result (λ w. w.items ≡ message_words (answer_message transaction (SeenModel.rejected invalid_arguments []))) }
    ensures short { IfOk result (λ w. length w.items ≤ most_words) }
{
    Vec::from_slice(alloc, &[REJECT, transaction, INVALID_ARGUMENTS])
}

/// The words of a call's message, in the spare room.
pub fn call_words(
    alloc: Global,
    transaction: u16,
    call: &Call,
    written: Written,
    spare: &mut Spare,
) -> Result<Vec<u16>, AllocError>
    requires { IsOfArguments (arguments_model call.now.arguments) written }
    ensures { IfOk result (λ w. w.items ≡ message_words (call_message transaction (raw_call call.now))) }
{
    let high = (call.program / 65536) as u16;
    let low = (call.program % 65536) as u16;
    let mut words = spare.take(alloc)?;
    words.extend_from_slice(&[CALL, transaction, high, low, call.version, call.procedure])?;
    match written {
        Written::Words(given) => words.extend_from_slice(given)?,
        Written::Value(shape, value) => write(alloc, shape, value, &mut words)?,
    }
    Ok(words)
}
