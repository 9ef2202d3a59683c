/// How many items a word of the peer acknowledges, and how many are out then.
#[derive(Clone, Copy, Debug, PartialEq, Eq)]
pub struct Progress {
    /// How many items the word acknowledges; that it opens the connection counts as one.
    pub acknowledged: u64,
    /// How many items are out after the word, and not acknowledged.
    pub out: u64,
}
