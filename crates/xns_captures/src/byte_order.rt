//! The order of bytes in a capture.
ghost use Rattle.std.specs.Prelude.{◌≡◌};
ghost use Rattle.xns_captures.specs.Places.{picked};

/// Which byte of a number comes first in a capture, or in a section of one.
#[derive(Clone, Copy, Debug, PartialEq, Eq)]
pub enum ByteOrder {
    /// The highest.
    Big,
    /// The lowest.
    Little,
}

impl ByteOrder {
    /// What is read in this order, of what is read in either.
    #[inline(always)]
    pub(crate) fn pick<T: Drop>(self, big: T, little: T) -> T
        ensures { result ≡ picked self big little }
    {
        match self {
            ByteOrder::Big => big,
            ByteOrder::Little => little,
        }
    }
}
