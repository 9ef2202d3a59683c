//! A message that came in one piece.
ghost use Rattle.std.specs.Prelude.{◌≡◌, ◌≤◌, ◌++◌, [], drop, length, IfNone, IfSome, Ok};
ghost use Rattle.courier_messages.specs.Head.{with_words, words_in};
ghost use Rattle.courier_messages.specs.Message.{message_of};
ghost use Rattle.courier_messages.specs.Phases.{good};

use crate::head::Head;
use crate::reading::{MOST_BYTES, read_head};
use courier_types::{PieceWords, WordSource};
use std::marker::Model;

/// A message whose words lie where they came, in one piece: nothing of it is kept. Contracts see the message.
#[derive(Debug, Drop)]
pub struct WholeMessage<'a> {
    head: Head,
    words: PieceWords<'a>,
}

impl<'a> Model for WholeMessage<'a> {
    ghost use Rattle.courier_messages.specs.Head.{with_words};
    ghost use Rattle.courier_messages.specs.declared.message.Message.{Message};

    ghost Value = { Message };

    ghost view = { λ a. with_words a.head a.words };
}

impl<'a> WholeMessage<'a> {
    /// The message that the bytes are; `None` where the bytes are no message.
    #[tactic(auto, unfolding(crate::specs::Message::message_of))]
    #[inline(always)]
    pub fn of(bytes: &'a [u8]) -> Option<WholeMessage<'a>>
        ensures some { IfSome result (λ message. message_of bytes.now ≡ Ok message) }
        ensures none { IfNone result (good (message_of bytes.now) ≡ []) }
    {
        if bytes.len() % 2 == 1 || bytes.len() > MOST_BYTES {
            return None;
        }
        let mut words = PieceWords::of_bytes(bytes);
        match read_head(&mut words) {
            Ok(head) => Some(WholeMessage { head, words }),
            Err(_) => None,
        }
    }

    /// The head of the message.
    #[inline(always)]
    pub fn head(&self) -> Head
        ensures { self.now ≡ with_words result (words_in self.now) }
    {
        self.head
    }

    /// How many words the message has of its own.
    #[inline(always)]
    pub fn word_count(&self) -> usize
        ensures { result ≡ length (words_in self.now) }
    {
        self.words.left()
    }

    /// Puts the message's words to the front of a buffer that has room for them.
    #[inline(always)]
    pub fn put_words(self, buffer: &mut [u16])
        requires { length (words_in self) ≤ length buffer.old }
        ensures { buffer.new ≡ words_in self.entry ++ drop (length (words_in self.entry)) buffer.old }
    {
        let WholeMessage { words, .. } = self;
        words.put_words(buffer);
    }
}
