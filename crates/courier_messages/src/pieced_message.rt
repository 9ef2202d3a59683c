//! A message that has come in.
ghost use Rattle.std.specs.Prelude.{◌≡◌, ◌<◌, ◌≤◌, ◌++◌, option_map, drop, length, IfOk, IfSome, OnErr};
ghost use Rattle.courier_types.specs.Pieces.{words_of};
ghost use Rattle.courier_types.specs.Shape.{shape_model};
ghost use Rattle.courier_types.specs.Value.{value_model};
ghost use Rattle.courier_types.specs.Check.{IsChecked};
ghost use Rattle.courier_types.specs.Fits.{Fits};
ghost use Rattle.courier_types.specs.Memory.{WantsMemory};
ghost use Rattle.courier_messages.specs.declared.message.Message as messages;
ghost use Rattle.courier_messages.specs.Head.{with_words, words_in};
ghost use Rattle.courier_messages.specs.Whole.{whole};

use crate::head::Head;
use crate::pieces::Pieces;
use crate::reading::words_left;
use crate::words::Words;
use courier_types::{PieceWords, ReadRefusal, Shape, Value, read_pieces};
use std::alloc::{AllocError, Global};
use std::marker::Model;

/// A message whose words lie in pieces: the words are read there, and the pieces are never joined. Contracts see the
/// message.
#[derive(Debug, Drop)]
pub struct PiecedMessage {
    head: Head,
    pieces: Pieces,
    /// How many words stand before the message's own.
    skipped: usize,
}

impl Model for PiecedMessage {
    ghost Value = { messages.Message };

    ghost view = { λ a. with_words a.head (drop a.skipped (words_of a.pieces)) };
}

impl PiecedMessage {
    #[inline(always)]
    pub fn new(head: Head, pieces: Pieces, skipped: usize) -> PiecedMessage
        ensures { result ≡ with_words head (drop skipped (words_of pieces)) }
    {
        PiecedMessage {
            head,
            pieces,
            skipped,
        }
    }

    #[inline(always)]
    pub fn head(&self) -> Head
        ensures { self.now ≡ with_words result (words_in self.now) }
    {
        self.head
    }

    /// A copy of the message's words, in one list.
    #[inline(always)]
    pub fn words(&self, alloc: Global) -> Result<Words, AllocError>
        ensures words { IfOk result (λ w. w ≡ words_in self.now) }
        // Memory is refused only where there are words.
        ensures memory { OnErr result (0 < length (words_in self.now)) }
    {
        let _count = self.pieces.len();
        let mut words = PieceWords::new(self.pieces.as_slice());
        words.skip(self.skipped);
        words_left(alloc, &mut words)
    }

    /// Puts the message's words to the front of a buffer that has room for them.
    pub fn put_words(&self, buffer: &mut [u16])
        requires { length (words_in self.now) ≤ length buffer.old }
        ensures { buffer.new ≡ words_in self.now ++ drop (length (words_in self.now)) buffer.old }
    {
        let _count = self.pieces.len();
        let mut words = PieceWords::new(self.pieces.as_slice());
        words.skip(self.skipped);
        words.put_words(buffer);
    }

    /// How many words the message has of its own.
    #[tactic(auto, using(crate::proofs::Wholes::left_behind))]
    #[inline(always)]
    pub fn word_count(&self) -> usize
        ensures { result ≡ length (words_in self.now) }
    {
        (self.pieces.len() / 2).saturating_sub(self.skipped)
    }

    /// The value that all of the message's words spell, if there is one.
    #[tactic(auto, unfolding(crate::specs::Whole::whole))]
    #[inline(always)]
    pub fn value(&self, alloc: Global, shape: &Shape) -> Result<Option<Value>, AllocError>
        requires { IsChecked (shape_model shape.now) }
        ensures whole { IfOk result (λ o. option_map value_model o ≡ whole (shape_model shape.now) (words_in self.now)) }
        ensures fits { IfOk result (λ o. IfSome o (λ v. Fits (shape_model shape.now) (value_model v))) }
        // Memory is refused only where reading the value wants some.
        ensures memory { OnErr result (WantsMemory (shape_model shape.now) (words_in self.now)) }
    {
        let _bytes = self.pieces.len();
        let count = self.word_count();
        match read_pieces(alloc, shape, self.pieces.as_slice(), self.skipped) {
            Ok((value, taken)) => {
                if taken == count {
                    Ok(Some(value))
                } else {
                    Ok(None)
                }
            }
            Err(ReadRefusal::Fault(_)) => Ok(None),
            Err(ReadRefusal::NoMemory) => Err(AllocError),
        }
    }
}
