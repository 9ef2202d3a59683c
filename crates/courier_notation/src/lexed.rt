//! What a text is, token by token.

use crate::token::Token;

/// The tokens of a text, and the names and strings that tokens refer to by their indices.
#[derive(Debug, Drop)]
pub struct Lexed {
    /// The tokens, in the order of the text.
    pub tokens: Vec<Token>,
    /// For each token, how many bytes of the text are left where the token begins. So its place is the
    /// length of the text less this number.
    pub left: Vec<usize>,
    /// The names, each as often as it stands in the text.
    pub names: Vec<Vec<u8>>,
    /// The bytes of the strings, without their quotes.
    pub strings: Vec<Vec<u8>>,
}
