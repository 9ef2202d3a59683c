//! The window on a file that is read piece by piece.
ghost use Rattle.std.specs.Prelude.{◌≡◌, ◌<◌, ◌≤◌, ◌+◌, ◌⊎◌, ◌++◌, ℕ, List, [], IfErr, IfOk, OnErr, OnOk, drop, length, max, take};
ghost use Rattle.std.specs.Io.KnownBytes.{Consumes, IsAtEnd, Keeps};
ghost use Rattle.xns_captures.specs.Parts.{most_block_bytes};

use std::alloc::{AllocError, Global};
use std::io::Read;
use std::marker::Model;
use xns_lines::RunFault;

/// A piece of a file has at most so many bytes.
const MOST_PIECE_BYTES: usize = 65536;

/// The bytes that were read of a file and not dropped yet, in room for a part of a capture and a piece at most. Contracts
/// see the window as these bytes, and how many bytes there is room for.
#[derive(Drop)]
pub(crate) struct Window {
    /// The bytes stand at the front, and the next piece is read behind them.
    room: Vec<u8>,
    /// The room holds so many bytes of the file.
    filled: usize,
}

impl Model for Window {
    ghost use Rattle.std.specs.Prelude.{◌≤◌, length, take};
    ghost use Rattle.xns_captures.specs.Windows.{WindowModel, most_room};

    ghost Value = { WindowModel };

    ghost view = { λ w. record { bytes = take w.filled w.room.items; room = length w.room.items } };

    ghost invariant = { λ w. (w.filled ≤ length w.room.items) × (length w.room.items ≤ most_room) };
}

impl Window {
    ghost use Rattle.xns_lines.specs.Faults.{IfWants};

    /// A window without bytes.
    pub(crate) fn new(alloc: Global) -> Window
        ensures { result.bytes ≡ [] }
    {
        Window {
            room: Vec::new(alloc),
            filled: 0,
        }
    }

    /// The bytes.
    pub(crate) fn as_slice(&self) -> &[u8]
        ensures { result.now ≡ self.now.bytes }
    {
        &self.room[..self.filled]
    }

    /// Reads the next piece of the file behind the bytes, and says how many bytes the piece has. A piece has none only at
    /// the end of the file, and 65,536 bytes at most. The room grows, by a piece, and memory is refused, only where there is
    /// no room for a byte more.
    pub(crate) fn read_piece<R: Read>(&mut self, reader: &mut R) -> Result<usize, RunFault>
        requires { length self.old.bytes ≤ most_block_bytes }
        ensures ok { IfOk result (λ count. (piece : List ℕ) × (self.new.bytes ≡ self.old.bytes ++ piece)
            × Consumes (R.remaining reader.old) (R.remaining reader.new) piece
            × (count ≡ length piece)
            × (count ≡ 0 → IsAtEnd (R.remaining reader.new))) }
        ensures err { IfErr result (λ fault. ((fault ≡ RunFault.NoMemory) ⊎ (fault ≡ RunFault.Read))
            × Keeps (R.remaining reader.old) (R.remaining reader.new)) }
        ensures room { length self.old.bytes < self.old.room → self.new.room ≡ self.old.room }
        ensures grows { (self.new.room ≤ max self.old.room (length self.old.bytes + MOST_PIECE_BYTES))
            × IfOk result (λ count. count ≤ MOST_PIECE_BYTES) }
        ensures memory { IfErr result (λ fault. IfWants fault (self.old.room ≡ length self.old.bytes)) }
    {
        let Ok(()) = make_room(&mut self.room, self.filled) else {
            return Err(RunFault::NoMemory);
        };
        let end = self.room.len().min(self.filled + MOST_PIECE_BYTES);
        let Ok(count) = reader.read(&mut self.room[self.filled..end]) else {
            return Err(RunFault::Read);
        };
        self.filled += count;
        Ok(count)
    }

    /// Drops so many bytes from the front.
    pub(crate) fn drop_front(&mut self, count: usize)
        requires { count ≤ length self.old.bytes }
        ensures bytes { self.new.bytes ≡ drop count self.old.bytes }
        ensures room { self.new.room ≡ self.old.room }
    {
        self.room.copy_within(count..self.filled, 0);
        self.filled -= count;
    }
}

/// Makes room for a piece behind so many bytes, where they leave none. Memory is refused only there.
fn make_room(room: &mut Vec<u8>, filled: usize) -> Result<(), AllocError>
    requires fits { filled ≤ length room.old.items }
    requires few { filled ≤ most_block_bytes }
    ensures room { OnOk result (filled < length room.new.items) }
    ensures kept { take filled room.new.items ≡ take filled room.old.items }
    ensures length { length room.old.items ≤ length room.new.items }
    ensures same { filled < length room.old.items → room.new.items ≡ room.old.items }
    ensures most { length room.new.items ≤ max (length room.old.items) (filled + MOST_PIECE_BYTES) }
    ensures memory { OnErr result (length room.old.items ≡ filled) }
{
    if filled == room.len() {
        room.resize(filled + MOST_PIECE_BYTES, 0)?;
    }
    Ok(())
}
