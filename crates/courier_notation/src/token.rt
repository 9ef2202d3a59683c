//! The tokens of a text.

/// A token (XSIS 038112, Courier). A keyword, and a mark, is a token of its own.
#[derive(Clone, Copy, Debug, PartialEq, Eq)]
pub enum Token {
    /// A name, by its index in `Lexed::names`. Each occurrence has an index of its own, so the index leads
    /// to the place of the name too.
    Name(u32),
    /// A number, by its value.
    Number(u32),
    /// A string, by its index in `Lexed::strings`.
    Quoted(u32),
    Array,
    Begin,
    Boolean,
    Cardinal,
    Choice,
    Depends,
    End,
    Error,
    False,
    Integer,
    Long,
    Of,
    Procedure,
    Program,
    Record,
    Reports,
    Returns,
    Sequence,
    String,
    True,
    Type,
    Unspecified,
    Upon,
    Version,
    /// `=>`
    Arrow,
    CloseBrace,
    CloseBracket,
    CloseParenthesis,
    Colon,
    Comma,
    Dot,
    Equal,
    Minus,
    OpenBrace,
    OpenBracket,
    OpenParenthesis,
    Semicolon,
}
