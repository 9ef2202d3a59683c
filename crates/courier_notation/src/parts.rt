//! Names, numbers and the parts of types, read from tokens.
ghost use Rattle.courier_notation.specs.Failing.{Finds};
ghost use Rattle.courier_notation.specs.Reading.{designator_at, designator_behind, maximum_at, member_at, name_at, numeric_at};
ghost use Rattle.courier_notation.specs.Reading.{reference_behind, small_or_fault, tag_at};
ghost use Rattle.courier_notation.specs.Programs.{long_number, reference_at, small_at};

use crate::marks::wrong;
use crate::part::{Part, parenthesized};
use crate::reason::Reason;
use crate::stop::Stop;
use crate::token::Token;
use crate::written::{Designator, Numeric, Reference};

/// The name that stands first, and the tokens behind it.
pub fn name_of(tokens: &[Token]) -> Result<(u32, &[Token]), Stop>
    ensures { Finds (λ x. (x.0, x.1.now)) result (name_at tokens.now) }
{
    match tokens {
        [Token::Name(name), rest @ ..] => Ok((*name, rest)),
        _ => Err(wrong(tokens, Reason::NoName)),
    }
}

/// The reference that begins with the name.
pub fn reference_of(name: u32, tokens: &[Token]) -> Result<(Reference, &[Token]), Stop>
    ensures { Finds (λ x. (x.0, x.1.now)) result (reference_behind name tokens.now) }
{
    match tokens {
        [Token::Dot, rest @ ..] => {
            let (second, rest) = name_of(rest)?;
            Ok((Reference::Other(name, second), rest))
        }
        _ => Ok((Reference::Own(name), tokens)),
    }
}

/// The number, if it is a word; the tokens are those behind it.
fn small_behind(number: u32, tokens: &[Token]) -> Result<(u16, &[Token]), Stop>
    ensures { Finds (λ x. (x.0, x.1.now)) result (small_or_fault number tokens.now) }
{
    if number < 65_536 {
        Ok((number as u16, tokens))
    } else {
        Err(Stop::Wrong {
            place: tokens.len() + 1,
            reason: Reason::LargeNumber,
        })
    }
}

/// A number of one word, or the name of a constant.
#[tactic(auto, unfolding(crate::specs::Reading::numeric_at))]
pub fn numeric_of(tokens: &[Token]) -> Result<(Numeric, &[Token]), Stop>
    ensures { Finds (λ x. (x.0, x.1.now)) result (numeric_at tokens.now) }
{
    match tokens {
        [Token::Number(number), rest @ ..] => {
            let (number, rest) = small_behind(*number, rest)?;
            Ok((Numeric::Number(number), rest))
        }
        [Token::Name(name), rest @ ..] => {
            let (constant, rest) = reference_of(*name, rest)?;
            Ok((Numeric::Constant(constant), rest))
        }
        _ => Err(wrong(tokens, Reason::NoNumber)),
    }
}

/// A number of one word, or the name of a constant.
impl Part for Numeric {
    ghost reads = { numeric_at };

    fn read(tokens: &[Token]) -> Result<(Numeric, &[Token]), Stop> {
        numeric_of(tokens)
    }
}

/// A name.
impl Part for u32 {
    ghost reads = { name_at };

    fn read(tokens: &[Token]) -> Result<(u32, &[Token]), Stop> {
        name_of(tokens)
    }
}

/// A member of an enumeration: a name, and its number in parentheses.
impl Part for (u32, Numeric) {
    ghost reads = { member_at };

    #[tactic(auto, unfolding(crate::specs::Reading::member_at))]
    fn read(tokens: &[Token]) -> Result<((u32, Numeric), &[Token]), Stop> {
        let (name, rest) = name_of(tokens)?;
        let (number, rest) = parenthesized(rest)?;
        Ok(((name, number), rest))
    }
}

/// The designator that begins with the name: its number in parentheses may be left out.
#[tactic(auto, unfolding(crate::specs::Reading::designator_behind))]
fn designator_of_name(name: u32, tokens: &[Token]) -> Result<(Designator, &[Token]), Stop>
    ensures { Finds (λ x. (x.0, x.1.now)) result (designator_behind name tokens.now) }
{
    match tokens {
        [Token::OpenParenthesis, ..] => {
            let (number, rest) = parenthesized(tokens)?;
            Ok(((name, Some(number)), rest))
        }
        _ => Ok(((name, None), tokens)),
    }
}

/// A designator.
impl Part for Designator {
    ghost reads = { designator_at };

    #[tactic(auto, unfolding(crate::specs::Reading::by_name))]
    fn read(tokens: &[Token]) -> Result<(Designator, &[Token]), Stop> {
        let (name, rest) = name_of(tokens)?;
        designator_of_name(name, rest)
    }
}

/// The enumeration that designators are of; `None` where none is named.
pub fn tag_of(tokens: &[Token]) -> Result<(Option<Reference>, &[Token]), Stop>
    ensures { Finds (λ x. (x.0, x.1.now)) result (tag_at tokens.now) }
{
    match tokens {
        [Token::Name(name), rest @ ..] => {
            let (tag, rest) = reference_of(*name, rest)?;
            Ok((Some(tag), rest))
        }
        _ => Ok((None, tokens)),
    }
}

/// A maximum; `None` where `OF` stands first.
#[tactic(auto, unfolding(crate::specs::Reading::maximum_at))]
pub fn maximum_of(tokens: &[Token]) -> Result<(Option<Numeric>, &[Token]), Stop>
    ensures { Finds (λ x. (x.0, x.1.now)) result (maximum_at tokens.now) }
{
    match tokens {
        [Token::Of, ..] => Ok((None, tokens)),
        _ => {
            let (most, rest) = numeric_of(tokens)?;
            Ok((Some(most), rest))
        }
    }
}

/// A number.
pub fn long_of(tokens: &[Token]) -> Result<(u32, &[Token]), Stop>
    ensures { Finds (λ x. (x.0, x.1.now)) result (long_number tokens.now) }
{
    match tokens {
        [Token::Number(number), rest @ ..] => Ok((*number, rest)),
        _ => Err(wrong(tokens, Reason::NoNumber)),
    }
}

/// A number of one word.
#[tactic(auto, unfolding(crate::specs::Programs::small_at))]
pub fn small_of(tokens: &[Token]) -> Result<(u16, &[Token]), Stop>
    ensures { Finds (λ x. (x.0, x.1.now)) result (small_at tokens.now) }
{
    let (number, rest) = long_of(tokens)?;
    small_behind(number, rest)
}

/// A name that is referred to.
impl Part for Reference {
    ghost reads = { reference_at };

    #[tactic(auto, unfolding(crate::specs::Reading::by_name))]
    fn read(tokens: &[Token]) -> Result<(Reference, &[Token]), Stop> {
        let (name, rest) = name_of(tokens)?;
        reference_of(name, rest)
    }
}
