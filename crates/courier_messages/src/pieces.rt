//! Bytes that came in pieces.
ghost use Rattle.std.specs.Prelude.{ℕ, List, ◌≡◌, ◌+◌, ◌<◌, ◌≤◌, ◌^◌, ◌++◌, [], length, slice_get, OnOk, OnErr};
ghost use Rattle.courier_types.specs.Pieces.{joined};
ghost use Rattle.courier_messages.specs.Inside.{bytes_kept, pieces_kept};

use std::alloc::{AllocError, Global};
use std::marker::Model;
use std::mem::replace;
use std::slice::from_ref;

/// How much room is made where a second piece comes, in pieces.
const FEW: usize = 4;

/// The pieces that are kept. Most messages come in one piece, which needs no vector around it.
#[derive(Debug, Drop)]
pub enum Kept {
    /// The only piece, or no bytes.
    One(Vec<u8>),
    Several(Vec<Vec<u8>>),
}

impl Kept {
    fn new(alloc: Global) -> Kept
        ensures bytes { bytes_kept result ≡ [] }
        ensures pieces { pieces_kept result ≡ 1 }
    {
        Kept::One(Vec::new(alloc))
    }

    #[inline(always)]
    fn as_slice(&self) -> &[Vec<u8>]
        ensures bytes { joined result.now ≡ bytes_kept self.now }
        ensures pieces { length result.now ≡ pieces_kept self.now }
    {
        match self {
            Kept::One(only) => from_ref(only),
            Kept::Several(several) => several.as_slice(),
        }
    }

    /// Puts one more piece behind the others.
    #[tactic(auto, using(crate::proofs::Joins::joined_push))]
    #[inline(always)]
    fn push(&mut self, alloc: Global, piece: Vec<u8>) -> Result<(), AllocError>
        ensures ok { OnOk result (bytes_kept self.new ≡ bytes_kept self.old ++ piece.items) }
        ensures err { OnErr result (bytes_kept self.new ≡ bytes_kept self.old) }
        ensures more { OnOk result (pieces_kept self.new ≡ pieces_kept self.old + 1) }
        ensures same { OnErr result (pieces_kept self.new ≡ pieces_kept self.old) }
    {
        match self {
            Kept::Several(several) => several.push(piece)?,
            Kept::One(only) => {
                let mut several = Vec::with_capacity(alloc, FEW)?;
                several.push(replace(only, Vec::new(alloc)))?;
                several.push(piece)?;
                *self = Kept::Several(several);
            }
        }
        Ok(())
    }
}

/// The byte at a place of pieces in a row; `None` behind the last.
fn byte_in(pieces: &[Vec<u8>], place: usize) -> Option<u8>
    ensures { result ≡ slice_get (joined pieces.now) place }
{
    let mut left = place;
    for piece in pieces {
        if left < piece.len() {
            return Some(piece[left]);
        }
        left -= piece.len();
    }
    None
}

/// Bytes that came in pieces and are kept as they came, but for pieces of no bytes. Contracts see all the bytes as one list.
#[derive(Debug, Drop)]
pub struct Pieces {
    kept: Kept,
    count: usize,
    alloc: Global,
}

impl Model for Pieces {
    ghost Value = { List ℕ };

    ghost view = { λ p. bytes_kept p.kept };

    // Each piece but one has bytes, so there are no more pieces than bytes, but for one.
    ghost invariant = { λ p. (p.count ≡ length (bytes_kept p.kept)) × (pieces_kept p.kept ≤ p.count + 1) };
}

impl Pieces {
    pub fn new(alloc: Global) -> Pieces
        ensures { result ≡ [] }
    {
        Pieces {
            kept: Kept::new(alloc),
            count: 0,
            alloc,
        }
    }

    /// How many bytes there are.
    #[inline(always)]
    pub fn len(&self) -> usize
        ensures { result ≡ length self.now }
    {
        self.count
    }

    /// The pieces, of which there are no more than bytes, but for one.
    #[inline(always)]
    pub fn as_slice(&self) -> &[Vec<u8>]
        ensures bytes { joined result.now ≡ self.now }
        ensures few { length result.now ≤ length self.now + 1 }
    {
        self.kept.as_slice()
    }

    /// The byte at a place; `None` behind the last.
    pub fn byte(&self, place: usize) -> Option<u8>
        ensures { result ≡ slice_get self.now place }
    {
        byte_in(self.as_slice(), place)
    }

    /// Takes all the pieces out.
    #[inline(always)]
    pub fn take(&mut self, alloc: Global) -> Pieces
        ensures taken { result ≡ self.old }
        ensures left { self.new ≡ [] }
    {
        replace(self, Pieces::new(alloc))
    }

    pub fn clear(&mut self)
        ensures { self.new ≡ [] }
    {
        self.kept = Kept::new(self.alloc);
        self.count = 0;
    }

    /// Puts one more piece behind the others. The only error is want of memory, which neither the first piece nor a
    /// piece of no bytes ever meets.
    #[inline(always)]
    pub fn push(&mut self, piece: Vec<u8>) -> Result<(), AllocError>
        requires { length self.old + length piece.items < 2 ^ 64 }
        ensures ok { OnOk result (self.new ≡ self.old ++ piece.items) }
        ensures err { OnErr result (self.new ≡ self.old) }
        ensures memory { OnErr result (0 < length piece.items) }
        ensures second { OnErr result (0 < length self.old) }
    {
        let more = piece.len();
        if more == 0 {
            return Ok(());
        }
        if self.count == 0 {
            self.kept = Kept::One(piece);
        } else {
            self.kept.push(self.alloc, piece)?;
        }
        self.count += more;
        Ok(())
    }
}
