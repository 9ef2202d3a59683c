//! What a server asks of the head of a message, and the heads of its answers.

ghost use Rattle.std.specs.Prelude.{◌≡◌, ℕ, List, length, nat_lt};
ghost use Rattle.courier_messages.specs.Head.{with_words};
ghost use Rattle.courier_messages.specs.Message.{message_words, most_words};
ghost use Rattle.courier_sessions.specs.Answering.{answer_message, is_a_call, is_reject};

use crate::answer::Answer;
use courier_messages::{Head, MOST_BYTES};

/// The most words that a message may have.
const MOST_WORDS: usize = MOST_BYTES / 2;

/// Whether a message with this head is a call.
pub fn is_call(head: Head) -> bool
    ensures { (words : List ℕ) → result ≡ is_a_call (with_words head words) }
{
    matches!(head, Head::Call { .. })
}

/// The head of an answer to the call of this transaction.
pub fn answer_head(answer: Answer, transaction: u16) -> Head
    ensures { (words : List ℕ) → with_words result words ≡ answer_message answer transaction words }
{
    match answer {
        Answer::Reject { reason } => Head::Reject {
            transaction,
            reason,
        },
        Answer::Return => Head::Return { transaction },
        Answer::Abort { error } => Head::Abort { transaction, error },
    }
}

/// Whether the answer is a reject.
pub fn is_reject(answer: Answer) -> bool
    ensures { result ≡ is_reject answer }
{
    matches!(answer, Answer::Reject { .. })
}

/// Whether a message with this head and so many words is longer than any message.
pub fn is_too_long(head: Head, count: usize) -> bool
    ensures { (words : List ℕ) → length words ≡ count → result ≡ nat_lt most_words (length (message_words (with_words head words))) }
{
    count > MOST_WORDS - head.size()
}
