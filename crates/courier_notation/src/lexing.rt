//! A text read token by token.
ghost use Rattle.std.specs.Prelude.{◌≡◌, ◌∷◌, [], ◌++◌, ◌+◌, ◌<◌, ◌≤◌, length, map, vec_len, IfOk, OnOk};
ghost use Rattle.courier_notation.specs.Lexing.{HasToken, with_lexeme, with_token, lexed_from, lexeme_view, lexing_of, lexing_view, most_text, most_tokens, nothing_read};
ghost use Rattle.courier_notation.specs.Failing.{Gives, IfNoMemory};

use crate::lexed::Lexed;
use crate::lexemes::{Lexeme, behind_blanks, lexeme_of};
use crate::limits::{MOST_TEXT, MOST_TOKENS};
use crate::reason::Reason;
use crate::stop::Stop;
use crate::token::Token;
use std::alloc::{AllocError, Global};

/// Adds a name or a string, and returns its number.
fn add_text(alloc: Global, texts: &mut Vec<Vec<u8>>, text: &[u8]) -> Result<u32, AllocError>
    requires { vec_len texts.old < 65536 }
    ensures texts { OnOk result (map (λ v. v.items) texts.new.items ≡ map (λ v. v.items) texts.old.items ++ text.now ∷ []) }
    ensures number { IfOk result (λ number. number ≡ vec_len texts.old) }
    ensures len { vec_len texts.new ≤ vec_len texts.old + 1 }
{
    let number = texts.len() as u32;
    texts.push(Vec::from_slice(alloc, text)?)?;
    Ok(number)
}

/// Adds a token, and how many bytes were left where it begins.
fn add_token(lexed: &mut Lexed, token: Token, left: usize) -> Result<(), AllocError>
    ensures view { OnOk result (lexing_view lexed.new ≡ with_token token left (lexing_view lexed.old)) }
    ensures names { OnOk result (lexed.new.names ≡ lexed.old.names) }
    ensures strings { OnOk result (lexed.new.strings ≡ lexed.old.strings) }
{
    lexed.tokens.push(token)?;
    lexed.left.push(left)?;
    Ok(())
}

/// Adds a lexeme.
fn add(alloc: Global, lexed: &mut Lexed, lexeme: Lexeme, left: usize) -> Result<(), AllocError>
    requires names { vec_len lexed.old.names < 65536 }
    requires strings { vec_len lexed.old.strings < 65536 }
    ensures view { OnOk result (lexing_view lexed.new ≡ with_lexeme (lexeme_view lexeme.entry) left (lexing_view lexed.old)) }
    ensures names { OnOk result (vec_len lexed.new.names ≤ vec_len lexed.old.names + 1) }
    ensures strings { OnOk result (vec_len lexed.new.strings ≤ vec_len lexed.old.strings + 1) }
{
    let token = match lexeme {
        Lexeme::Plain(token) => token,
        Lexeme::Name(word) => Token::Name(add_text(alloc, &mut lexed.names, word)?),
        Lexeme::Quoted(string) => Token::Quoted(add_text(alloc, &mut lexed.strings, string)?),
    };
    add_token(lexed, token, left)
}

/// The tokens of a text that is not too long.
fn lex_within(alloc: Global, text: &[u8]) -> Result<Lexed, Stop>
    ensures exact { Gives lexing_view result (lexed_from most_tokens nothing_read text.now) }
    ensures memory { IfNoMemory result (HasToken text.now) }
{
    let mut lexed = Lexed {
        tokens: Vec::new(alloc),
        left: Vec::new(alloc),
        names: Vec::new(alloc),
        strings: Vec::new(alloc),
    };
    let mut rest = text;
    for _ in 0..MOST_TOKENS {
        let begun = behind_blanks(rest);
        if begun.len() == 0 {
            return Ok(lexed);
        }
        let (lexeme, behind) = lexeme_of(begun)?;
        add(alloc, &mut lexed, lexeme, begun.len())?;
        rest = behind;
    }
    Err(Stop::Wrong {
        place: rest.len(),
        reason: Reason::TooManyTokens,
    })
}

/// The tokens of a text of at most 262,144 bytes, of which there are fewer than 65,536; or the first fault.
///
/// A text that is longer has the fault `TooLong` behind the last byte that it may have, whatever else is
/// wrong with it. `NoMemory` only where a growth was refused: the text begins with a token, and is not too long.
#[tactic(auto, unfolding(crate::specs::Lexing::lexing_of))]
pub fn lex(alloc: Global, text: &[u8]) -> Result<Lexed, Stop>
    ensures exact { Gives lexing_view result (lexing_of text.now) }
    ensures memory { IfNoMemory result (HasToken text.now) }
    ensures fits { IfNoMemory result (length text.now ≤ most_text) }
{
    if text.len() > MOST_TEXT {
        return Err(Stop::Wrong {
            place: text.len() - MOST_TEXT,
            reason: Reason::TooLong,
        });
    }
    lex_within(alloc, text)
}
