//! Words that are keywords, and marks.
ghost use Rattle.std.specs.Prelude.{◌≡◌};
ghost use Rattle.courier_notation.specs.Lexing.{keyword_of as keyword_of_word, mark_of as mark_of_byte, token_beside as token_beside_word};

use crate::token::Token;

/// The keywords, each with its token.
static KEYWORDS: [(&[u8], Token); 24] = [
    (b"ARRAY", Token::Array),
    (b"BEGIN", Token::Begin),
    (b"BOOLEAN", Token::Boolean),
    (b"CARDINAL", Token::Cardinal),
    (b"CHOICE", Token::Choice),
    (b"DEPENDS", Token::Depends),
    (b"END", Token::End),
    (b"ERROR", Token::Error),
    (b"FALSE", Token::False),
    (b"INTEGER", Token::Integer),
    (b"LONG", Token::Long),
    (b"OF", Token::Of),
    (b"PROCEDURE", Token::Procedure),
    (b"PROGRAM", Token::Program),
    (b"RECORD", Token::Record),
    (b"REPORTS", Token::Reports),
    (b"RETURNS", Token::Returns),
    (b"SEQUENCE", Token::Sequence),
    (b"STRING", Token::String),
    (b"TRUE", Token::True),
    (b"TYPE", Token::Type),
    (b"UNSPECIFIED", Token::Unspecified),
    (b"UPON", Token::Upon),
    (b"VERSION", Token::Version),
];

/// The token beside the word in the table; `None` where the word does not stand there.
fn token_beside(word: &[u8], table: &[(&[u8], Token)]) -> Option<Token>
    ensures { result ≡ token_beside_word (λ name. name.now) table.now word.now }
{
    for (name, token) in table {
        if word == *name {
            return Some(*token);
        }
    }
    None
}

/// The keyword that a word is; `None` where it is none.
pub fn keyword_of(word: &[u8]) -> Option<Token>
    ensures { result ≡ keyword_of_word word.now }
{
    token_beside(word, &KEYWORDS)
}

/// The token of a mark that is one byte; `None` where the byte is no such mark.
pub fn mark_of(byte: u8) -> Option<Token>
    ensures { result ≡ mark_of_byte byte }
{
    match byte {
        b':' => Some(Token::Colon),
        b';' => Some(Token::Semicolon),
        b',' => Some(Token::Comma),
        b'.' => Some(Token::Dot),
        b'-' => Some(Token::Minus),
        b'(' => Some(Token::OpenParenthesis),
        b')' => Some(Token::CloseParenthesis),
        b'[' => Some(Token::OpenBracket),
        b']' => Some(Token::CloseBracket),
        b'{' => Some(Token::OpenBrace),
        b'}' => Some(Token::CloseBrace),
        _ => None,
    }
}
