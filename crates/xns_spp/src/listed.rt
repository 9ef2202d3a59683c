//! A list that contracts compare.
ghost use Rattle.std.specs.Prelude.{◌≡◌, ◌++◌, ◌∷◌, [], OnOk, OnErr};

use std::alloc::AllocError;
use std::marker::Model;

/// An owned list, which contracts see as the list of its entries.
///
/// `new` makes a list from a `Vec`, and `into_vec` gives the `Vec` back. Neither takes memory.
#[derive(Debug, Drop)]
pub struct Listed<T> {
    entries: Vec<T>,
}

impl<T> Model for Listed<T> {
    ghost use Rattle.std.specs.Prelude.{List};

    ghost Value = { List T };

    ghost view = { λ l. l.entries.items };
}

impl<T: Drop> Listed<T> {
    /// The entries of the vector.
    pub fn new(entries: Vec<T>) -> Listed<T>
        ensures { result ≡ entries.items }
    {
        Listed { entries }
    }

    /// The vector of the entries.
    pub fn into_vec(self) -> Vec<T>
        ensures { result.items ≡ self }
    {
        let Listed { entries } = self;
        entries
    }

    /// The entries, lent.
    pub fn as_slice(&self) -> &[T]
        ensures { result.now ≡ self.now }
    {
        self.entries.as_slice()
    }

    /// Appends one entry more. The only error is want of memory, after which the list is as it was.
    pub fn push(&mut self, entry: T) -> Result<(), AllocError>
        ensures ok { OnOk result (self.new ≡ self.old ++ entry ∷ []) }
        ensures err { OnErr result (self.new ≡ self.old) }
    {
        self.entries.push(entry)?;
        Ok(())
    }
}
