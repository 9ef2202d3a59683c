//! Room for words.
ghost use Rattle.std.specs.Prelude.{◌≡◌, ◌≤◌, [], IfOk};
ghost use Rattle.std.specs.Vec.{vec_capacity};
ghost use Rattle.courier_messages.specs.Bounds.{first_room};

use std::alloc::{AllocError, Global};
use std::mem::replace;

/// How many words a message that is made has room for at first. Most messages need no more.
const FIRST_ROOM: usize = 16;

/// The room in which the words of a message were made, kept for the words of the next one. It is kept where it has no
/// more than 16 words, which are 32 bytes.
#[derive(Debug, Drop)]
pub struct Spare {
    room: Vec<u16>,
    ghost few: { vec_capacity room ≤ first_room },
}

impl Spare {
    /// No room yet.
    pub fn new(alloc: Global) -> Spare {
        Spare {
            room: Vec::new(alloc),
        }
    }

    /// A vector of no words, in the room that is kept or in new room.
    #[inline(always)]
    pub fn take(&mut self, alloc: Global) -> Result<Vec<u16>, AllocError>
        ensures { IfOk result (λ w. w.items ≡ []) }
    {
        let mut room = replace(&mut self.room, Vec::new(alloc));
        room.clear();
        room.reserve(FIRST_ROOM)?;
        Ok(room)
    }

    /// Keeps the room of words that are no longer wanted, where it is small.
    #[inline(always)]
    pub fn keep(&mut self, words: Vec<u16>) {
        if words.capacity() <= FIRST_ROOM {
            self.room = words;
        }
    }
}
