//! The memory that the messages take turns in.
ghost use Rattle.std.specs.Prelude.{◌≡◌, IfOk};
ghost use Rattle.courier_messages.specs.Head.{words_in};
ghost use Rattle.xns_spp.specs.Item.{item_with};

use courier_messages::{PiecedMessage, WholeMessage};
use std::alloc::{AllocError, Global};
use xns_spp::control::{ATTENTION, END_OF_MESSAGE};
use xns_spp::{Bytes, Header, Item};

/// How many buffers of items are kept for others at most.
const MOST_SPARE: usize = 64;

/// The allocator, room for the words of a message, which the next one uses again, and buffers of items that were read, for others.
#[derive(Drop)]
pub struct Scratch {
    /// The allocator.
    pub alloc: Global,
    /// The words of the latest message.
    words: Vec<u16>,
    /// Buffers of items that were read.
    spare: Vec<Vec<u8>>,
}

impl Scratch {
    /// No words yet.
    pub fn new(alloc: Global) -> Scratch {
        Scratch {
            alloc,
            words: Vec::new(alloc),
            spare: Vec::new(alloc),
        }
    }

    /// A copy of what a packet carries. The only error is want of memory.
    pub fn item_of(&mut self, header: &Header, content: &[u8]) -> Result<Item, AllocError>
        ensures { IfOk result (λ item. item ≡ item_with header.now content.now) }
    {
        let mut body = match self.spare.pop() {
            Some(body) => body,
            None => {
                self.spare.reserve_exact(MOST_SPARE)?;
                Vec::new(self.alloc)
            }
        };
        body.clear();
        body.reserve_exact(content.len())?;
        body.extend_from_slice(content)?;
        Ok(Item {
            stream: header.stream,
            attention: header.control & ATTENTION != 0,
            last: header.control & END_OF_MESSAGE != 0,
            body: Bytes::new(body),
        })
    }

    /// Takes the buffer of an item that was read, for another one.
    pub fn give_back(&mut self, item: Item) {
        if self.spare.len() < MOST_SPARE {
            let _ = self.spare.push(item.body.into_vec());
        }
    }

    /// The words of a message that came in one piece.
    #[tactic(auto, using(crate::proofs::Words::front_words))]
    #[inline(always)]
    pub fn words_of_whole(&mut self, message: WholeMessage<'_>) -> Result<&[u16], AllocError>
        ensures { IfOk result (λ words. words.now ≡ words_in message.entry) }
    {
        let count = message.word_count();
        if self.words.len() < count {
            self.words.resize(count, 0)?;
        }
        message.put_words(self.words.as_mut_slice());
        Ok(&self.words.as_slice()[..count])
    }

    /// The words of a message.
    pub fn words_of(&mut self, message: &PiecedMessage) -> Result<&[u16], AllocError>
        ensures { IfOk result (λ words. words.now ≡ words_in message.now) }
    {
        self.words.resize(message.word_count(), 0)?;
        message.put_words(self.words.as_mut_slice());
        Ok(self.words.as_slice())
    }
}
