//! What stands before the words of Courier's messages.

ghost use Rattle.std.specs.Prelude.{◌≡◌, ℕ, List, IfSome, IfOk, Some, None};
ghost use Rattle.courier_messages.specs.Message.{message_bytes};
ghost use Rattle.courier_messages.specs.declared.head.Head.TheVariants.{Call};
ghost use Rattle.courier_messages.specs.Head.{with_words};
ghost use Rattle.xns_c.specs.Heads.{head_given, message_given, answer_of_kind, short_head};

use crate::message::XnsMessage;
use courier_messages::{Head, Words, write_message};
use courier_sessions::Answer;
use std::alloc::{AllocError, Global};

/// The program, version and procedure that a call with this head names; 0 for each where it is no call's.
pub fn procedure_of(head: Head) -> (u32, u16, u16)
    ensures { (transaction program version procedure : ℕ) → head ≡ Call transaction program version procedure
        → result ≡ (program, version, procedure) }
{
    match head {
        Head::Call {
            program,
            version,
            procedure,
            ..
        } => (program, version, procedure),
        _ => (0, 0, 0),
    }
}

/// What comes before the words of a message.
pub fn head_out(head: Head) -> XnsMessage
    ensures { (words : List ℕ) → result ≡ head_given (with_words head words) }
{
    match head {
        Head::Call { transaction, .. } => {
            let (program, version, procedure) = procedure_of(head);
            XnsMessage {
                kind: 0,
                transaction,
                program,
                version,
                procedure,
                number: 0,
            }
        }
        Head::Reject {
            transaction,
            reason,
        } => short_head(1, transaction, reason),
        Head::Return { transaction } => short_head(2, transaction, 0),
        Head::Abort { transaction, error } => short_head(3, transaction, error),
    }
}

/// What comes before the words of a message that is no call.
fn short_head(kind: u8, transaction: u16, number: u16) -> XnsMessage
    ensures { result ≡ short_head kind transaction number }
{
    XnsMessage {
        kind,
        transaction,
        program: 0,
        version: 0,
        procedure: 0,
        number,
    }
}

/// What comes before the words of a message, if its kind is one of the four.
pub fn head_in(parts: &XnsMessage) -> Option<Head>
    ensures known { IfSome result (λ h. (words : List ℕ) → message_given parts.now words ≡ Some (with_words h words)) }
    ensures unknown { result ≡ None → (words : List ℕ) → message_given parts.now words ≡ None }
{
    let transaction = parts.transaction;
    match parts.kind {
        0 => Some(Head::Call {
            transaction,
            program: parts.program,
            version: parts.version,
            procedure: parts.procedure,
        }),
        1 => Some(Head::Reject {
            transaction,
            reason: parts.number,
        }),
        2 => Some(Head::Return { transaction }),
        3 => Some(Head::Abort {
            transaction,
            error: parts.number,
        }),
        _ => None,
    }
}

/// The bytes of a message with these words, which are copied.
pub fn message_bytes(alloc: Global, head: Head, words: &[u16]) -> Result<Vec<u8>, AllocError>
    ensures { IfOk result (λ bytes. bytes.items ≡ message_bytes (with_words head words.now)) }
{
    let mut copied = Vec::new(alloc);
    copied.extend_from_slice(words)?;
    let message = head.with_words(Words::new(copied));
    let mut bytes = Vec::new(alloc);
    write_message(alloc, &message, &mut bytes)?;
    Ok(bytes)
}

/// The answer of this kind, if there is a kind of this number.
pub fn answer_of_kind(kind: u8, code: u16) -> Option<Answer>
    ensures { result ≡ answer_of_kind kind code }
{
    match kind {
        1 => Some(Answer::Reject { reason: code }),
        2 => Some(Answer::Return),
        3 => Some(Answer::Abort { error: code }),
        _ => None,
    }
}
