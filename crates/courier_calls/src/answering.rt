//! Reading an answer.
ghost use Rattle.std.specs.Prelude.{◌≡◌, ℕ, List, None, Ok, Err, Some, is_ok, true};
ghost use Rattle.courier_messages.specs.declared.fault.SessionFault.TheVariants.{NoMemory};
ghost use Rattle.courier_messages.specs.declared.message.Message.TheVariants.{Abort};
ghost use Rattle.courier_calls.specs.Table.{table_model, IsCheckedTable};
ghost use Rattle.courier_messages.specs.Head.{with_words, words_in};
ghost use Rattle.courier_calls.specs.Calls.{SeenModel, found};
ghost use Rattle.courier_calls.specs.Caller.{abort_seen_as, answer_to, head_fault, is_answer_listed, IsReadAs, results_in, unasked};

use crate::call::{Seen, Target};
use crate::table::Table;
use courier_messages::{Head, PiecedMessage, SessionFault};
use std::alloc::Global;

/// Reads the message as a reject of this reason, with its words.
fn read_reject(alloc: Global, reason: u16, message: &PiecedMessage) -> Result<Seen, SessionFault>
    ensures { IsReadAs result (Ok (SeenModel.rejected reason (words_in message.now))) }
{
    Ok(Seen::Rejected(reason, message.words(alloc)?))
}

/// Reads the message as the results of the procedure that was called.
#[tactic(auto, using(crate::proofs::Found::found_checked))]
fn read_return(
    alloc: Global,
    table: &Table,
    target: Target,
    message: &PiecedMessage,
) -> Result<Seen, SessionFault>
    requires { IsCheckedTable (table_model table.now) }
    ensures read { IsReadAs result (results_in (found (table_model table.now) target.program target.version target.procedure)
        (words_in message.now)) }
    ensures memory { result ≡ Err NoMemory → is_ok (found (table_model table.now) target.program target.version target.procedure) ≡ true }
{
    let Ok((_, listed)) = table.find(target.program, target.version, target.procedure) else {
        return Err(SessionFault::BadReply);
    };
    let value = message
        .value(alloc, &listed.results)?
        .ok_or(SessionFault::BadReply)?;
    Ok(Seen::Returned(value))
}

/// Reads the message as the error of this number, of the program that was called.
#[tactic(auto, using(crate::proofs::Found::found_checked, crate::proofs::Found::error_checked))]
fn read_abort(
    alloc: Global,
    table: &Table,
    target: Target,
    error: u16,
    message: &PiecedMessage,
) -> Result<Seen, SessionFault>
    requires { IsCheckedTable (table_model table.now) }
    ensures read { IsReadAs result (abort_seen_as (found (table_model table.now) target.program target.version target.procedure) error
        (words_in message.now)) }
    ensures memory { result ≡ Err NoMemory → (transaction : ℕ) → is_answer_listed (found (table_model table.now) target.program
        target.version target.procedure) (Abort transaction error (words_in message.now)) ≡ true }
{
    let Ok((entry, _)) = table.find(target.program, target.version, target.procedure) else {
        return Err(SessionFault::BadReply);
    };
    let Some(listed) = entry.error(error) else {
        return Err(SessionFault::BadReply);
    };
    let value = message
        .value(alloc, &listed.arguments)?
        .ok_or(SessionFault::BadReply)?;
    Ok(Seen::Aborted(error, value))
}

/// Reads the message as the answer to the call that waits. An `Err` says why the message is no answer, or that memory
/// was refused, which it is only where nothing but the message's words can be wrong.
#[tactic(auto, unfolding(crate::specs::Caller::answer_to))]
pub fn read_answer(
    alloc: Global,
    table: &Table,
    expects: u16,
    target: Target,
    message: &PiecedMessage,
) -> Result<Seen, SessionFault>
    requires { IsCheckedTable (table_model table.now) }
    ensures read { IsReadAs result (answer_to (table_model table.now) expects target.program target.version target.procedure message.now) }
    ensures memory { result ≡ Err NoMemory → head_fault (table_model table.now) expects (Some target) message.now ≡ None }
{
    match message.head() {
        Head::Call { .. } => Err(SessionFault::BadReply),
        Head::Reject {
            transaction,
            reason,
        } => {
            if transaction != expects {
                return Err(SessionFault::WrongTransaction);
            }
            read_reject(alloc, reason, message)
        }
        Head::Return { transaction } => {
            if transaction != expects {
                return Err(SessionFault::WrongTransaction);
            }
            read_return(alloc, table, target, message)
        }
        Head::Abort { transaction, error } => {
            if transaction != expects {
                return Err(SessionFault::WrongTransaction);
            }
            read_abort(alloc, table, target, error, message)
        }
    }
}

/// Whether the table lists what a message with this head brings as the answer to the call: results of its procedure, or
/// an error of its program.
fn is_answer_listed(table: &Table, target: Target, head: Head) -> bool
    ensures { (words : List ℕ) → result ≡ is_answer_listed (found (table_model table.now) target.program target.version target.procedure)
        (with_words head words) }
{
    match head {
        Head::Call { .. } => false,
        Head::Reject { .. } => true,
        Head::Return { .. } => table
            .find(target.program, target.version, target.procedure)
            .is_ok(),
        Head::Abort { error, .. } => {
            match table.find(target.program, target.version, target.procedure) {
                Ok((entry, _)) => entry.error(error).is_some(),
                Err(_) => false,
            }
        }
    }
}

/// Why a message with this head is no answer to the call that waits, if one does, whatever the message's words are;
/// `None` where it may be one.
pub fn head_fault(
    table: &Table,
    expects: u16,
    waiting: Option<Target>,
    head: Head,
) -> Option<SessionFault>
    ensures { (words : List ℕ) → result ≡ head_fault (table_model table.now) expects waiting (with_words head words) }
{
    let transaction = match head {
        Head::Call { .. } => return Some(SessionFault::BadReply),
        Head::Reject { transaction, .. } => transaction,
        Head::Return { transaction } => transaction,
        Head::Abort { transaction, .. } => transaction,
    };
    let Some(target) = waiting else {
        return Some(SessionFault::WrongTransaction);
    };
    if transaction != expects {
        Some(SessionFault::WrongTransaction)
    } else if is_answer_listed(table, target, head) {
        None
    } else {
        Some(SessionFault::BadReply)
    }
}

/// What is wrong with a message that no call waits for.
pub fn unasked(message: &PiecedMessage) -> SessionFault
    ensures { result ≡ unasked message.now }
{
    match message.head() {
        Head::Call { .. } => SessionFault::BadReply,
        _ => SessionFault::WrongTransaction,
    }
}
