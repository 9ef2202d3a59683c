//! How the words of a message are shown.
use call_texts::Unread;

/// How the words of a call, a return or an abort are shown.
#[derive(Drop)]
pub enum Shown {
    /// By name and value: this text stands in place of the numbers and the words.
    Named(Vec<u8>),
    /// By numbers: they are declared, but the words are not exactly one value, or its text is too long.
    Unread(Unread),
    /// By numbers: no programs are given, or they do not declare it.
    Numbered,
}
