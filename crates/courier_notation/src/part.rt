//! Parts that a list is made of.

ghost use Rattle.std.specs.Prelude.{IsOk};
ghost use Rattle.courier_notation.specs.Failing.{Finds, Gives, IfNoMemory};
ghost use Rattle.courier_notation.specs.Reading.{Then, enclosed as enclosed_at, in_parentheses, listed, most_parts, token_at};

use crate::limits::MOST_PARTS;
use crate::marks::{behind, next_part, wrong};
use crate::reason::Reason;
use crate::stop::Stop;
use crate::token::Token;
use std::alloc::Global;

/// A part of a list. Each `impl` names the reader that the part is read by.
pub trait Part: Drop {
    ghost use Rattle.courier_notation.specs.Failing.{Finds};
    ghost use Rattle.courier_notation.specs.Reading.{Reader};

    ghost reads: { Reader Self };

    /// The part that stands first, and the tokens behind it.
    fn read(tokens: &[Token]) -> Result<(Self, &[Token]), Stop>
        ensures { Finds (λ x. (x.0, x.1.now)) result (reads tokens.now) };
}

/// Parts with commas between.
pub fn parts_of<P: Part>(alloc: Global, tokens: &[Token]) -> Result<(Vec<P>, &[Token]), Stop>
    ensures exact { Gives (λ x. (x.0.items, x.1.now)) result (listed P.reads most_parts tokens.now) }
    ensures memory { IfNoMemory result (IsOk (P.reads tokens.now)) }
{
    let mut parts = Vec::new(alloc);
    let mut rest = tokens;
    for _ in 0..MOST_PARTS {
        let (part, after) = P::read(rest)?;
        parts.push(part)?;
        match next_part(after) {
            Some(next) => rest = next,
            None => return Ok((parts, after)),
        }
    }
    Err(wrong(rest, Reason::TooManyParts))
}

/// A part in parentheses.
#[tactic(auto, unfolding(crate::specs::Reading::in_parentheses))]
pub fn parenthesized<P: Part>(tokens: &[Token]) -> Result<(P, &[Token]), Stop>
    ensures { Finds (λ x. (x.0, x.1.now)) result (in_parentheses P.reads tokens.now) }
{
    let inside = behind(Token::OpenParenthesis, Reason::NoOpenParenthesis, tokens)?;
    let (part, rest) = P::read(inside)?;
    let rest = behind(Token::CloseParenthesis, Reason::NoCloseParenthesis, rest)?;
    Ok((part, rest))
}

/// Parts with commas between, behind an opening token and up to a closing one, each with what is told where it is
/// missing.
#[tactic(auto, unfolding(crate::specs::Reading::enclosed))]
pub fn enclosed<P: Part>(
    alloc: Global,
    opening: (Token, Reason),
    closing: (Token, Reason),
    tokens: &[Token],
) -> Result<(Vec<P>, &[Token]), Stop>
    ensures exact { Gives (λ x. (x.0.items, x.1.now)) result (enclosed_at opening closing P.reads tokens.now) }
    ensures memory { IfNoMemory result (Then (token_at opening.0 opening.1 tokens.now) (λ inside. IsOk (P.reads inside))) }
{
    let inside = behind(opening.0, opening.1, tokens)?;
    let (parts, rest) = parts_of(alloc, inside)?;
    let rest = behind(closing.0, closing.1, rest)?;
    Ok((parts, rest))
}
