//! A message without its words.
ghost use Rattle.std.specs.Prelude.{◌≡◌, ℕ, ◌+◌, List, ◌++◌, length, vec_len, vec_capacity};
ghost use Rattle.courier_types.specs.Writing.{HasRoom};
ghost use Rattle.courier_messages.specs.Head.{with_words, words_in, transaction_in, head_size, head_words};
ghost use Rattle.courier_types.specs.Source.{bytes_of};

use crate::kinds::{ABORT, CALL, REJECT, RETURN};
use crate::message::Message;
use crate::words::Words;
use crate::writing::put_words;

/// A message without its words.
#[derive(Clone, Copy, Debug)]
pub enum Head {
    Call {
        transaction: u16,
        program: u32,
        version: u16,
        procedure: u16,
    },
    Reject {
        transaction: u16,
        reason: u16,
    },
    Return {
        transaction: u16,
    },
    Abort {
        transaction: u16,
        error: u16,
    },
}

impl Head {
    /// The head of a message.
    pub fn of(message: &Message) -> Head
        ensures { message.now ≡ with_words result (words_in message.now) }
    {
        let transaction = message.transaction();
        match message {
            Message::Call {
                program,
                version,
                procedure,
                ..
            } => Head::Call {
                transaction,
                program: *program,
                version: *version,
                procedure: *procedure,
            },
            Message::Reject { reason, .. } => Head::Reject {
                transaction,
                reason: *reason,
            },
            Message::Return { .. } => Head::Return { transaction },
            Message::Abort { error, .. } => Head::Abort {
                transaction,
                error: *error,
            },
        }
    }

    /// The transaction that the message belongs to: an answer has that of its call.
    pub fn transaction(self) -> u16
        ensures { (words : List ℕ) → result ≡ transaction_in (with_words self words) }
    {
        match self {
            Head::Call { transaction, .. }
            | Head::Reject { transaction, .. }
            | Head::Return { transaction }
            | Head::Abort { transaction, .. } => transaction,
        }
    }

    /// How many words the head has.
    pub fn size(self) -> usize
        ensures { result ≡ head_size self }
    {
        match self {
            Head::Call { .. } => 6,
            Head::Reject { .. } | Head::Abort { .. } => 3,
            Head::Return { .. } => 2,
        }
    }

    pub fn with_words(self, words: Words) -> Message
        ensures { result ≡ with_words self words }
    {
        match self {
            Head::Call {
                transaction,
                program,
                version,
                procedure,
            } => Message::Call {
                transaction,
                program,
                version,
                procedure,
                words,
            },
            Head::Reject {
                transaction,
                reason,
            } => Message::Reject {
                transaction,
                reason,
                words,
            },
            Head::Return { transaction } => Message::Return { transaction, words },
            Head::Abort { transaction, error } => Message::Abort {
                transaction,
                error,
                words,
            },
        }
    }

    /// Appends the words of the head, two bytes each, to `out`, which has room for them.
    pub fn put(self, out: &mut Vec<u8>)
        requires { HasRoom out.old (length (bytes_of (head_words self))) }
        ensures items { out.new.items ≡ out.old.items ++ bytes_of (head_words self) }
        ensures len { vec_len out.new ≡ vec_len out.old + length (bytes_of (head_words self)) }
        ensures capacity { vec_capacity out.new ≡ vec_capacity out.old }
    {
        let transaction = self.transaction();
        match self {
            Head::Call {
                program,
                version,
                procedure,
                ..
            } => {
                let high = (program / 65536) as u16;
                let low = (program % 65536) as u16;
                put_words(&[CALL, transaction, high, low, version, procedure], out)
            }
            Head::Reject { reason, .. } => put_words(&[REJECT, transaction, reason], out),
            Head::Return { .. } => put_words(&[RETURN, transaction], out),
            Head::Abort { error, .. } => put_words(&[ABORT, transaction, error], out),
        }
    }
}
