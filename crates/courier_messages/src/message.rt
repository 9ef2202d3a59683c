//! Courier's four messages.
ghost use Rattle.std.specs.Prelude.{◌≡◌};
ghost use Rattle.courier_messages.specs.Head.{transaction_in, words_in};

use crate::words::Words;

/// A whole message.
#[derive(Debug, Drop)]
pub enum Message {
    Call {
        transaction: u16,
        program: u32,
        version: u16,
        procedure: u16,
        words: Words,
    },
    Reject {
        transaction: u16,
        reason: u16,
        words: Words,
    },
    Return {
        transaction: u16,
        words: Words,
    },
    Abort {
        transaction: u16,
        error: u16,
        words: Words,
    },
}

impl Message {
    /// The transaction that the message belongs to: an answer has that of its call.
    pub fn transaction(&self) -> u16
        ensures { result ≡ transaction_in self.now }
    {
        match self {
            Message::Call { transaction, .. }
            | Message::Reject { transaction, .. }
            | Message::Return { transaction, .. }
            | Message::Abort { transaction, .. } => *transaction,
        }
    }

    /// The words behind the message's head: arguments, results, or the words of a reject or of an error.
    pub fn words(&self) -> &[u16]
        ensures { result.now ≡ words_in self.now }
    {
        match self {
            Message::Call { words, .. }
            | Message::Reject { words, .. }
            | Message::Return { words, .. }
            | Message::Abort { words, .. } => words.as_slice(),
        }
    }
}
