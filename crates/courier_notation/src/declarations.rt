//! Declarations read from tokens, from left to right.

ghost use Rattle.courier_notation.specs.declared.reason.Reason.TheVariants.{NoEqual};
ghost use Rattle.courier_notation.specs.declared.token.Token.TheVariants.{Equal};
ghost use Rattle.courier_notation.specs.ProgramModels.{declaration_view, declaration_views, declared_view};
ghost use Rattle.courier_notation.specs.Written.{field_models};
ghost use Rattle.courier_notation.specs.Failing.{Gives, IfNoMemory};
ghost use Rattle.courier_notation.specs.Reading.{FieldsWant, Then, TypeWants, token_at};
ghost use Rattle.courier_notation.specs.Programs.{arguments_at, constant_declared, declaration_at, declarations_at};
ghost use Rattle.courier_notation.specs.Programs.{declared_at, error_behind, most_declarations, most_depth, DeclarationWants, DeclarationsWant, DeclaredWants, ProcedureWants, ReportsWant, ResultsWant, procedure_behind};
ghost use Rattle.courier_notation.specs.Programs.{reports_at, results_at, type_declared};

use crate::constants::constant_of;
use crate::declared::{Constant, Declaration, Declared};
use crate::limits::{MOST_DECLARATIONS, MOST_DEPTH};
use crate::marks::{behind, is_end, wrong};
use crate::part::enclosed;
use crate::parts::{name_of, small_of};
use crate::reason::Reason;
use crate::stop::Stop;
use crate::token::Token;
use crate::types::{bracketed, type_of};
use crate::written::{Group, Reference};
use std::alloc::Global;

/// The arguments of a procedure or an error; none where no bracket stands first.
#[tactic(auto, unfolding(crate::specs::Reading::optional, crate::specs::Reading::fields_at))]
fn arguments_of(alloc: Global, tokens: &[Token]) -> Result<(Vec<Group<u32>>, &[Token]), Stop>
    ensures exact { Gives (λ x. (field_models x.0.items, x.1.now)) result (arguments_at tokens.now) }
    ensures memory { IfNoMemory result (FieldsWant tokens.now) }
{
    match tokens {
        [Token::OpenBracket, ..] => bracketed(alloc, MOST_DEPTH, tokens),
        _ => Ok((Vec::new(alloc), tokens)),
    }
}

/// The results of a procedure; none where `RETURNS` does not stand first.
#[tactic(auto, unfolding(crate::specs::Reading::optional))]
fn results_of(alloc: Global, tokens: &[Token]) -> Result<(Vec<Group<u32>>, &[Token]), Stop>
    ensures exact { Gives (λ x. (field_models x.0.items, x.1.now)) result (results_at tokens.now) }
    ensures memory { IfNoMemory result (ResultsWant tokens.now) }
{
    match tokens {
        [Token::Returns, rest @ ..] => bracketed(alloc, MOST_DEPTH, rest),
        _ => Ok((Vec::new(alloc), tokens)),
    }
}

/// The errors that a procedure reports; none where `REPORTS` does not stand first.
#[tactic(auto, unfolding(crate::specs::Reading::optional))]
fn reports_of(alloc: Global, tokens: &[Token]) -> Result<(Vec<Reference>, &[Token]), Stop>
    ensures exact { Gives (λ x. (x.0.items, x.1.now)) result (reports_at tokens.now) }
    ensures memory { IfNoMemory result (ReportsWant tokens.now) }
{
    match tokens {
        [Token::Reports, rest @ ..] => enclosed(
            alloc,
            (Token::OpenBracket, Reason::NoOpenBracket),
            (Token::CloseBracket, Reason::NoCloseBracket),
            rest,
        ),
        _ => Ok((Vec::new(alloc), tokens)),
    }
}

/// A procedure, behind `PROCEDURE`.
#[tactic(auto, unfolding(crate::specs::Programs::procedure_behind))]
fn declared_procedure(alloc: Global, tokens: &[Token]) -> Result<(Declared, &[Token]), Stop>
    ensures exact { Gives (λ x. (declared_view x.0, x.1.now)) result (procedure_behind tokens.now) }
    ensures memory { IfNoMemory result (ProcedureWants tokens.now) }
{
    let (arguments, rest) = arguments_of(alloc, tokens)?;
    let (results, rest) = results_of(alloc, rest)?;
    let (errors, rest) = reports_of(alloc, rest)?;
    let rest = behind(Token::Equal, Reason::NoEqual, rest)?;
    let (number, rest) = small_of(rest)?;
    Ok((
        Declared::Procedure {
            arguments,
            results,
            errors,
            number,
        },
        rest,
    ))
}

/// An error, behind `ERROR`.
#[tactic(auto, unfolding(crate::specs::Programs::error_behind))]
fn declared_error(alloc: Global, tokens: &[Token]) -> Result<(Declared, &[Token]), Stop>
    ensures exact { Gives (λ x. (declared_view x.0, x.1.now)) result (error_behind tokens.now) }
    ensures memory { IfNoMemory result (FieldsWant tokens.now) }
{
    let (arguments, rest) = arguments_of(alloc, tokens)?;
    let rest = behind(Token::Equal, Reason::NoEqual, rest)?;
    let (number, rest) = small_of(rest)?;
    Ok((Declared::Error { arguments, number }, rest))
}

/// A type, behind `TYPE`.
#[tactic(auto, unfolding(crate::specs::Programs::type_declared))]
fn declared_type(alloc: Global, tokens: &[Token]) -> Result<(Declared, &[Token]), Stop>
    ensures exact { Gives (λ x. (declared_view x.0, x.1.now)) result (type_declared tokens.now) }
    ensures memory { IfNoMemory result (Then (token_at Equal NoEqual tokens.now) (TypeWants most_depth)) }
{
    let rest = behind(Token::Equal, Reason::NoEqual, tokens)?;
    let (written, rest) = type_of(alloc, MOST_DEPTH, rest)?;
    Ok((Declared::Type(written), rest))
}

/// A constant, from its type on.
#[tactic(auto, unfolding(crate::specs::Programs::constant_declared))]
fn declared_constant(alloc: Global, tokens: &[Token]) -> Result<(Declared, &[Token]), Stop>
    ensures exact { Gives (λ x. (declared_view x.0, x.1.now)) result (constant_declared tokens.now) }
    ensures memory { IfNoMemory result (TypeWants most_depth tokens.now) }
{
    let (written, rest) = type_of(alloc, MOST_DEPTH, tokens)?;
    let rest = behind(Token::Equal, Reason::NoEqual, rest)?;
    let (constant, rest) = constant_of(MOST_DEPTH, rest)?;
    Ok((Declared::Constant(written, constant), rest))
}

/// What a name is declared as, behind its colon.
#[tactic(auto, unfolding(crate::specs::Programs::declared_at))]
fn declared_of(alloc: Global, tokens: &[Token]) -> Result<(Declared, &[Token]), Stop>
    ensures exact { Gives (λ x. (declared_view x.0, x.1.now)) result (declared_at tokens.now) }
    ensures memory { IfNoMemory result (DeclaredWants tokens.now) }
{
    match tokens {
        [Token::Type, rest @ ..] => declared_type(alloc, rest),
        [Token::Procedure, rest @ ..] => declared_procedure(alloc, rest),
        [Token::Error, rest @ ..] => declared_error(alloc, rest),
        _ => declared_constant(alloc, tokens),
    }
}

/// A declaration, up to its semicolon.
#[tactic(auto, unfolding(crate::specs::Programs::declaration_at))]
fn declaration_of(alloc: Global, tokens: &[Token]) -> Result<(Declaration, &[Token]), Stop>
    ensures exact { Gives (λ x. (declaration_view x.0, x.1.now)) result (declaration_at tokens.now) }
    ensures memory { IfNoMemory result (DeclarationWants tokens.now) }
{
    let (name, rest) = name_of(tokens)?;
    let rest = behind(Token::Colon, Reason::NoColon, rest)?;
    let (declared, rest) = declared_of(alloc, rest)?;
    let rest = behind(Token::Semicolon, Reason::NoSemicolon, rest)?;
    Ok((Declaration { name, declared }, rest))
}

/// Declarations up to `END`, perhaps none.
fn some_declarations(alloc: Global, tokens: &[Token]) -> Result<(Vec<Declaration>, &[Token]), Stop>
    ensures exact { Gives (λ x. (declaration_views x.0.items, x.1.now)) result (declarations_at most_declarations tokens.now) }
    ensures memory { IfNoMemory result (DeclarationsWant tokens.now) }
{
    let mut declarations = Vec::new(alloc);
    let mut rest = tokens;
    for _ in 0..MOST_DECLARATIONS {
        if is_end(rest) {
            return Ok((declarations, rest));
        }
        let (declaration, after) = declaration_of(alloc, rest)?;
        declarations.push(declaration)?;
        rest = after;
    }
    if is_end(rest) {
        return Ok((declarations, rest));
    }
    Err(wrong(rest, Reason::TooManyDeclarations))
}

/// Declarations up to `END`.
#[tactic(auto, unfolding(crate::specs::Programs::declarations_at))]
pub fn declarations_of(
    alloc: Global,
    tokens: &[Token],
) -> Result<(Vec<Declaration>, &[Token]), Stop>
    ensures exact { Gives (λ x. (declaration_views x.0.items, x.1.now)) result (declarations_at most_declarations tokens.now) }
    ensures memory { IfNoMemory result (DeclarationsWant tokens.now) }
{
    if is_end(tokens) {
        return Ok((Vec::new(alloc), tokens));
    }
    some_declarations(alloc, tokens)
}
