//! Types read from tokens, from left to right.
ghost use Rattle.std.specs.Prelude.{IsOk};
ghost use Rattle.courier_notation.specs.Written.{TypeModel, candidate_models, group_model};
ghost use Rattle.courier_notation.specs.Written.{field_models, type_model};
ghost use Rattle.courier_notation.specs.Failing.{Finds, Gives, IfNoMemory, over};
ghost use Rattle.courier_notation.specs.Reading.{array_behind, member_at, name_at, designator_at, numeric_at, maximum_at, candidate_at, choice_behind};
ghost use Rattle.courier_notation.specs.Reading.{enumeration_behind, field_at, fields_at, fields_behind, listed};
ghost use Rattle.courier_notation.specs.Reading.{long_behind, most_parts, record_behind, reference_behind};
ghost use Rattle.courier_notation.specs.Reading.{sequence_behind, type_at, type_behind, BehindWants, Behind, ChoiceWants, ElementWants, FieldsWant, TypeWants};

use crate::limits::MOST_PARTS;
use crate::marks::{behind, next_part, wrong};
use crate::part::parts_of;
use crate::parts::{maximum_of, numeric_of, reference_of, tag_of};
use crate::reason::Reason;
use crate::stop::Stop;
use crate::token::Token;
use crate::written::{Designator, Group, WrittenType};
use courier_types::Predefined;
use std::alloc::Global;

/// An enumeration, behind its opening brace.
#[tactic(auto, unfolding(crate::specs::Reading::enumeration_behind))]
fn enumeration_of(alloc: Global, tokens: &[Token]) -> Result<(WrittenType, &[Token]), Stop>
    ensures exact { Gives (λ x. (type_model x.0, x.1.now)) result (enumeration_behind tokens.now) }
    ensures memory { IfNoMemory result (IsOk (member_at tokens.now)) }
{
    let (members, rest) = parts_of(alloc, tokens)?;
    let rest = behind(Token::CloseBrace, Reason::NoCloseBrace, rest)?;
    Ok((WrittenType::Enumeration(members), rest))
}

/// A long cardinal or a long integer, behind `LONG`.
fn long_of(tokens: &[Token]) -> Result<(WrittenType, &[Token]), Stop>
    ensures { Finds (λ x. (type_model x.0, x.1.now)) result (long_behind tokens.now) }
{
    let (long, rest) = match tokens {
        [Token::Cardinal, rest @ ..] => (Predefined::LongCardinal, rest),
        [Token::Integer, rest @ ..] => (Predefined::LongInteger, rest),
        _ => return Err(wrong(tokens, Reason::NoType)),
    };
    Ok((WrittenType::Predefined(long), rest))
}

/// Names, and their type behind a colon.
#[cycle(types)]
#[tactic(auto, unfolding(crate::specs::Reading::group_at))]
fn field_of(alloc: Global, depth: usize, tokens: &[Token]) -> Result<(Group<u32>, &[Token]), Stop>
    ensures exact { Gives (λ x. (group_model x.0, x.1.now)) result (field_at (type_at depth) tokens.now) }
    ensures memory { IfNoMemory result (IsOk (name_at tokens.now)) }
{
    let (names, rest) = parts_of(alloc, tokens)?;
    let rest = behind(Token::Colon, Reason::NoColon, rest)?;
    let (written, rest) = type_of(alloc, depth, rest)?;
    Ok(((names, written), rest))
}

/// Components with commas between.
#[cycle(types)]
fn fields_of(
    alloc: Global,
    depth: usize,
    tokens: &[Token],
) -> Result<(Vec<Group<u32>>, &[Token]), Stop>
    ensures exact { Gives (λ x. (field_models x.0.items, x.1.now)) result (listed (field_at (type_at depth)) most_parts tokens.now) }
    ensures memory { IfNoMemory result (IsOk (name_at tokens.now)) }
{
    let mut fields = Vec::new(alloc);
    let mut rest = tokens;
    for _ in 0..MOST_PARTS {
        let (field, after) = field_of(alloc, depth, rest)?;
        fields.push(field)?;
        match next_part(after) {
            Some(next) => rest = next,
            None => return Ok((fields, after)),
        }
    }
    Err(wrong(rest, Reason::TooManyParts))
}

/// Components up to a bracket, perhaps none.
#[cycle(types)]
#[tactic(auto, unfolding(crate::specs::Reading::fields_behind))]
fn fields_inside(
    alloc: Global,
    depth: usize,
    tokens: &[Token],
) -> Result<(Vec<Group<u32>>, &[Token]), Stop>
    ensures exact { Gives (λ x. (field_models x.0.items, x.1.now)) result (fields_behind (type_at depth) tokens.now) }
    ensures memory { IfNoMemory result (IsOk (name_at tokens.now)) }
{
    match tokens {
        [Token::CloseBracket, rest @ ..] => Ok((Vec::new(alloc), rest)),
        _ => {
            let (fields, rest) = fields_of(alloc, depth, tokens)?;
            let rest = behind(Token::CloseBracket, Reason::NoCloseBracket, rest)?;
            Ok((fields, rest))
        }
    }
}

/// Components in brackets.
#[cycle(types)]
#[tactic(auto, unfolding(crate::specs::Reading::fields_at))]
pub fn bracketed(
    alloc: Global,
    depth: usize,
    tokens: &[Token],
) -> Result<(Vec<Group<u32>>, &[Token]), Stop>
    ensures exact { Gives (λ x. (field_models x.0.items, x.1.now)) result (fields_at (type_at depth) tokens.now) }
    ensures memory { IfNoMemory result (FieldsWant tokens.now) }
{
    let inside = behind(Token::OpenBracket, Reason::NoOpenBracket, tokens)?;
    fields_inside(alloc, depth, inside)
}

/// Designators, and their type behind an arrow.
#[cycle(types)]
#[tactic(auto, unfolding(crate::specs::Reading::group_at))]
fn candidate_of(
    alloc: Global,
    depth: usize,
    tokens: &[Token],
) -> Result<(Group<Designator>, &[Token]), Stop>
    ensures exact { Gives (λ x. (group_model x.0, x.1.now)) result (candidate_at (type_at depth) tokens.now) }
    ensures memory { IfNoMemory result (IsOk (designator_at tokens.now)) }
{
    let (designators, rest) = parts_of(alloc, tokens)?;
    let rest = behind(Token::Arrow, Reason::NoArrow, rest)?;
    let (written, rest) = type_of(alloc, depth, rest)?;
    Ok(((designators, written), rest))
}

/// Candidates with commas between.
#[cycle(types)]
fn candidates_of(
    alloc: Global,
    depth: usize,
    tokens: &[Token],
) -> Result<(Vec<Group<Designator>>, &[Token]), Stop>
    ensures exact { Gives (λ x. (candidate_models x.0.items, x.1.now)) result
        (listed (candidate_at (type_at depth)) most_parts tokens.now) }
    ensures memory { IfNoMemory result (IsOk (designator_at tokens.now)) }
{
    let mut candidates = Vec::new(alloc);
    let mut rest = tokens;
    for _ in 0..MOST_PARTS {
        let (candidate, after) = candidate_of(alloc, depth, rest)?;
        candidates.push(candidate)?;
        match next_part(after) {
            Some(next) => rest = next,
            None => return Ok((candidates, after)),
        }
    }
    Err(wrong(rest, Reason::TooManyParts))
}

/// An array, behind `ARRAY`.
#[cycle(types)]
#[tactic(auto, unfolding(crate::specs::Reading::array_behind))]
fn array_of(alloc: Global, depth: usize, tokens: &[Token]) -> Result<(WrittenType, &[Token]), Stop>
    ensures exact { Gives (λ x. (type_model x.0, x.1.now)) result (array_behind (type_at depth) tokens.now) }
    ensures memory { IfNoMemory result (Behind (numeric_at tokens.now) (ElementWants (type_at depth) (TypeWants depth))) }
{
    let (number, rest) = numeric_of(tokens)?;
    let rest = behind(Token::Of, Reason::NoOf, rest)?;
    let (element, rest) = type_of(alloc, depth, rest)?;
    Ok((WrittenType::Array(number, Box::new(alloc, element)?), rest))
}

/// A sequence, behind `SEQUENCE`.
#[cycle(types)]
#[tactic(auto, unfolding(crate::specs::Reading::sequence_behind))]
fn sequence_of(
    alloc: Global,
    depth: usize,
    tokens: &[Token],
) -> Result<(WrittenType, &[Token]), Stop>
    ensures exact { Gives (λ x. (type_model x.0, x.1.now)) result (sequence_behind (type_at depth) tokens.now) }
    ensures memory { IfNoMemory result (Behind (maximum_at tokens.now) (ElementWants (type_at depth) (TypeWants depth))) }
{
    let (most, rest) = maximum_of(tokens)?;
    let rest = behind(Token::Of, Reason::NoOf, rest)?;
    let (element, rest) = type_of(alloc, depth, rest)?;
    Ok((WrittenType::Sequence(most, Box::new(alloc, element)?), rest))
}

/// A record, behind `RECORD`.
#[cycle(types)]
fn record_of(alloc: Global, depth: usize, tokens: &[Token]) -> Result<(WrittenType, &[Token]), Stop>
    ensures exact { Gives (λ x. (type_model x.0, x.1.now)) result (record_behind (type_at depth) tokens.now) }
    ensures memory { IfNoMemory result (FieldsWant tokens.now) }
{
    let (fields, rest) = bracketed(alloc, depth, tokens)?;
    Ok((WrittenType::Record(fields), rest))
}

/// A choice, behind `CHOICE`.
#[cycle(types)]
#[tactic(auto, unfolding(crate::specs::Reading::choice_behind))]
fn choice_of(alloc: Global, depth: usize, tokens: &[Token]) -> Result<(WrittenType, &[Token]), Stop>
    ensures exact { Gives (λ x. (type_model x.0, x.1.now)) result (choice_behind (type_at depth) tokens.now) }
    ensures memory { IfNoMemory result (ChoiceWants tokens.now) }
{
    let (tag, rest) = tag_of(tokens)?;
    let rest = behind(Token::Of, Reason::NoOf, rest)?;
    let inside = behind(Token::OpenBrace, Reason::NoOpenBrace, rest)?;
    let (candidates, rest) = candidates_of(alloc, depth, inside)?;
    let rest = behind(Token::CloseBrace, Reason::NoCloseBrace, rest)?;
    Ok((WrittenType::Choice(tag, candidates), rest))
}

/// A type that is referred to, behind the first part of its name.
fn named_of(name: u32, tokens: &[Token]) -> Result<(WrittenType, &[Token]), Stop>
    ensures { Finds (λ x. (type_model x.0, x.1.now)) result (over TypeModel.named (reference_behind name tokens.now)) }
{
    let (reference, rest) = reference_of(name, tokens)?;
    Ok((WrittenType::Named(reference), rest))
}

/// The type that begins with the token.
#[cycle(types)]
#[tactic(auto, unfolding(crate::specs::Reading::type_behind))]
fn type_behind(
    alloc: Global,
    depth: usize,
    first: Token,
    tokens: &[Token],
) -> Result<(WrittenType, &[Token]), Stop>
    ensures exact { Gives (λ x. (type_model x.0, x.1.now)) result (type_behind (type_at depth) first tokens.now) }
    ensures memory { IfNoMemory result (BehindWants (type_at depth) (TypeWants depth) first tokens.now) }
{
    match first {
        Token::Boolean => Ok((WrittenType::Predefined(Predefined::Boolean), tokens)),
        Token::Cardinal => Ok((WrittenType::Predefined(Predefined::Cardinal), tokens)),
        Token::Integer => Ok((WrittenType::Predefined(Predefined::Integer), tokens)),
        Token::Unspecified => Ok((WrittenType::Predefined(Predefined::Unspecified), tokens)),
        Token::String => Ok((WrittenType::Predefined(Predefined::Text), tokens)),
        Token::Long => long_of(tokens),
        Token::OpenBrace => enumeration_of(alloc, tokens),
        Token::Array => array_of(alloc, depth, tokens),
        Token::Sequence => sequence_of(alloc, depth, tokens),
        Token::Record => record_of(alloc, depth, tokens),
        Token::Choice => choice_of(alloc, depth, tokens),
        Token::Name(name) => named_of(name, tokens),
        _ => Err(Stop::Wrong {
            place: tokens.len() + 1,
            reason: Reason::NoType,
        }),
    }
}

/// The type at the front of the tokens, in which types stand in one another at most so deep, and the tokens behind it.
#[cycle(types)]
#[tactic(auto, unfolding(crate::specs::Reading::nested))]
pub fn type_of(
    alloc: Global,
    depth: usize,
    tokens: &[Token],
) -> Result<(WrittenType, &[Token]), Stop>
    ensures exact { Gives (λ x. (type_model x.0, x.1.now)) result (type_at depth tokens.now) }
    ensures memory { IfNoMemory result (TypeWants depth tokens.now) }
{
    if depth == 0 {
        return Err(wrong(tokens, Reason::TooDeep));
    }
    match tokens {
        [] => Err(wrong(tokens, Reason::NoType)),
        [first, rest @ ..] => type_behind(alloc, depth - 1, *first, rest),
    }
}
