//! Constants read from tokens, from left to right.
ghost use Rattle.std.specs.Prelude.{◌≡◌};
ghost use Rattle.courier_notation.specs.declared.declared.Constant.TheVariants.{Other};
ghost use Rattle.courier_notation.specs.Failing.{Finds, over};
ghost use Rattle.courier_notation.specs.Reading.{listed, most_parts, passed};
ghost use Rattle.courier_notation.specs.Programs.{begins_constant as begins_constant_of, chosen_behind};
ghost use Rattle.courier_notation.specs.Programs.{component_behind, constant_at, constant_behind, element_at};
ghost use Rattle.courier_notation.specs.Programs.{elements_behind, long_number};

use crate::declared::Constant;
use crate::limits::MOST_PARTS;
use crate::marks::{behind, next_part, wrong};
use crate::parts::{long_of, reference_of};
use crate::reason::Reason;
use crate::stop::Stop;
use crate::token::Token;

/// Whether a constant begins there.
fn begins_constant(tokens: &[Token]) -> bool
    ensures { result ≡ begins_constant_of tokens.now }
{
    match tokens {
        [Token::Number(_), ..]
        | [Token::Quoted(_), ..]
        | [Token::Name(_), ..]
        | [Token::True, ..]
        | [Token::False, ..]
        | [Token::Minus, ..]
        | [Token::OpenBracket, ..] => true,
        _ => false,
    }
}

/// The name of a constant, or a designator and the constant that it chooses.
#[cycle(constants)]
#[tactic(auto, unfolding(crate::specs::Programs::chosen_behind))]
fn chosen_of(depth: usize, name: u32, tokens: &[Token]) -> Result<(Constant, &[Token]), Stop>
    ensures { Finds (λ x. (x.0, x.1.now)) result (chosen_behind (constant_at depth) name tokens.now) }
{
    let (reference, rest) = reference_of(name, tokens)?;
    if begins_constant(rest) {
        let (_chosen, rest) = constant_of(depth, rest)?;
        return Ok((Constant::Other, rest));
    }
    Ok((Constant::Named(reference), rest))
}

/// What is behind a constant in brackets that may be the name of a component.
#[cycle(constants)]
fn component_of(
    depth: usize,
    constant: Constant,
    tokens: &[Token],
) -> Result<(Constant, &[Token]), Stop>
    ensures { Finds (λ x. (x.0, x.1.now)) result (component_behind (constant_at depth) constant tokens.now) }
{
    match tokens {
        [Token::Colon, rest @ ..] => constant_of(depth, rest),
        _ => Ok((constant, tokens)),
    }
}

/// An element, or a component behind its name and a colon: the last constant of it.
#[cycle(constants)]
#[tactic(auto, unfolding(crate::specs::Programs::element_at))]
fn element_of(depth: usize, tokens: &[Token]) -> Result<(Constant, &[Token]), Stop>
    ensures { Finds (λ x. (x.0, x.1.now)) result (element_at (constant_at depth) tokens.now) }
{
    let (constant, rest) = constant_of(depth, tokens)?;
    component_of(depth, constant, rest)
}

/// The tokens behind elements with commas between.
#[cycle(constants)]
fn behind_elements(depth: usize, tokens: &[Token]) -> Result<&[Token], Stop>
    ensures { Finds (λ x. x.now) result (passed (listed (element_at (constant_at depth)) most_parts tokens.now)) }
{
    let mut rest = tokens;
    for _ in 0..MOST_PARTS {
        let (_element, after) = element_of(depth, rest)?;
        match next_part(after) {
            Some(next) => rest = next,
            None => return Ok(after),
        }
    }
    Err(wrong(rest, Reason::TooManyParts))
}

/// Elements or components up to a bracket, perhaps none.
#[cycle(constants)]
#[tactic(auto, unfolding(crate::specs::Programs::elements_behind))]
fn elements_inside(depth: usize, tokens: &[Token]) -> Result<(Constant, &[Token]), Stop>
    ensures { Finds (λ x. (x.0, x.1.now)) result (elements_behind (constant_at depth) tokens.now) }
{
    match tokens {
        [Token::CloseBracket, rest @ ..] => Ok((Constant::Other, rest)),
        _ => {
            let rest = behind_elements(depth, tokens)?;
            let rest = behind(Token::CloseBracket, Reason::NoCloseBracket, rest)?;
            Ok((Constant::Other, rest))
        }
    }
}

/// A number behind a minus sign.
fn negative_of(tokens: &[Token]) -> Result<(Constant, &[Token]), Stop>
    ensures { Finds (λ x. (x.0, x.1.now)) result (over (λ n. Other) (long_number tokens.now)) }
{
    let (_number, rest) = long_of(tokens)?;
    Ok((Constant::Other, rest))
}

/// The constant that begins with the token.
#[cycle(constants)]
#[tactic(auto, unfolding(crate::specs::Programs::constant_behind))]
fn constant_by(depth: usize, first: Token, tokens: &[Token]) -> Result<(Constant, &[Token]), Stop>
    ensures { Finds (λ x. (x.0, x.1.now)) result (constant_behind (constant_at depth) first tokens.now) }
{
    match first {
        Token::Number(number) => Ok((Constant::Number(number), tokens)),
        Token::Quoted(_) | Token::True | Token::False => Ok((Constant::Other, tokens)),
        Token::Name(name) => chosen_of(depth, name, tokens),
        Token::Minus => negative_of(tokens),
        Token::OpenBracket => elements_inside(depth, tokens),
        _ => Err(Stop::Wrong {
            place: tokens.len() + 1,
            reason: Reason::NoConstant,
        }),
    }
}

/// The constant at the front of the tokens, in which constants stand at most so deep.
#[cycle(constants)]
#[tactic(auto, unfolding(crate::specs::Reading::nested))]
pub fn constant_of(depth: usize, tokens: &[Token]) -> Result<(Constant, &[Token]), Stop>
    ensures { Finds (λ x. (x.0, x.1.now)) result (constant_at depth tokens.now) }
{
    if depth == 0 {
        return Err(wrong(tokens, Reason::TooDeep));
    }
    match tokens {
        [] => Err(wrong(tokens, Reason::NoConstant)),
        [first, rest @ ..] => constant_by(depth - 1, *first, rest),
    }
}
