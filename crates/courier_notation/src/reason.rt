//! What is wrong with a text.

use thiserror::Error;

/// Why a text is no program: what does not stand where it has to, or which limit is passed.
#[derive(Clone, Copy, Debug, PartialEq, Eq, Error)]
pub enum Reason {
    /// A type has to stand there.
    #[error("a type has to stand here")]
    NoType,
    /// A constant has to stand there.
    #[error("a constant has to stand here")]
    NoConstant,
    /// `PROGRAM` has to stand there.
    #[error("PROGRAM has to stand here")]
    NoProgram,
    /// `VERSION` has to stand there.
    #[error("VERSION has to stand here")]
    NoVersion,
    /// `BEGIN` has to stand there.
    #[error("BEGIN has to stand here")]
    NoBegin,
    /// `END` has to stand there.
    #[error("END has to stand here")]
    NoEnd,
    /// `UPON` has to stand there.
    #[error("UPON has to stand here")]
    NoUpon,
    /// `=` has to stand there.
    #[error("= has to stand here")]
    NoEqual,
    /// `;` has to stand there.
    #[error("; has to stand here")]
    NoSemicolon,
    /// `.` has to stand there.
    #[error(". has to stand here")]
    NoDot,
    /// A name has to stand there.
    #[error("a name has to stand here")]
    NoName,
    /// A number has to stand there, or in some places the name of one.
    #[error("a number has to stand here")]
    NoNumber,
    /// A number of one word has to stand there, and the number is over 65,535.
    #[error("the number is over 65,535")]
    LargeNumber,
    /// `OF` has to stand there.
    #[error("OF has to stand here")]
    NoOf,
    /// `=>` has to stand there.
    #[error("=> has to stand here")]
    NoArrow,
    /// `:` has to stand there.
    #[error(": has to stand here")]
    NoColon,
    /// An opening brace has to stand there.
    #[error("an opening brace has to stand here")]
    NoOpenBrace,
    /// A closing brace has to stand there.
    #[error("a closing brace has to stand here")]
    NoCloseBrace,
    /// `[` has to stand there.
    #[error("[ has to stand here")]
    NoOpenBracket,
    /// `]` has to stand there.
    #[error("] has to stand here")]
    NoCloseBracket,
    /// `(` has to stand there.
    #[error("( has to stand here")]
    NoOpenParenthesis,
    /// `)` has to stand there.
    #[error(") has to stand here")]
    NoCloseParenthesis,
    /// A type or a constant stands in others deeper than `MOST_DEPTH`.
    #[error("a type or a constant stands deeper than 16")]
    TooDeep,
    /// A list has more parts than `MOST_PARTS`.
    #[error("a list has over 1,024 parts")]
    TooManyParts,
    /// A program has more declarations than `MOST_DECLARATIONS`.
    #[error("a program has over 4,096 declarations")]
    TooManyDeclarations,
    /// The text goes on behind the program.
    #[error("the text goes on behind the program")]
    Trailing,
    /// No token begins with the byte.
    #[error("no token begins with this byte")]
    BadByte,
    /// The number is over 4,294,967,295.
    #[error("the number is over 4,294,967,295")]
    HugeNumber,
    /// The string has no closing quote.
    #[error("the string has no closing quote")]
    OpenString,
    /// The name has more bytes than `MOST_NAME`.
    #[error("the name has over 255 bytes")]
    LongName,
    /// The text has more than 65,535 tokens.
    #[error("the text has over 65,535 tokens")]
    TooManyTokens,
    /// The text has more bytes than `MOST_TEXT`.
    #[error("the text has over 262,144 bytes")]
    TooLong,
}
