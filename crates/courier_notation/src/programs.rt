//! A program read from tokens, from left to right.

ghost use Rattle.std.specs.Prelude.{IsOk};
ghost use Rattle.courier_notation.specs.ProgramModels.{declaration_views, program_view};
ghost use Rattle.courier_notation.specs.Failing.{Finds, Gives, IfNoMemory};
ghost use Rattle.courier_notation.specs.Reading.{Behind, listed, most_parts};
ghost use Rattle.courier_notation.specs.Programs.{BodyWants, DependenciesWant, body_at, dependencies_at, dependency_at, header_at};
ghost use Rattle.courier_notation.specs.Programs.{nothing_at, program_of};

use crate::declarations::declarations_of;
use crate::declared::{Declaration, Dependency, WrittenProgram};
use crate::marks::{behind, wrong};
use crate::part::{Part, enclosed};
use crate::parts::{long_of, name_of, small_of};
use crate::reason::Reason;
use crate::stop::Stop;
use crate::token::Token;
use std::alloc::Global;

/// A program that is depended upon: its name, number and version.
impl Part for Dependency {
    ghost reads = { dependency_at };

    #[tactic(auto, unfolding(crate::specs::Programs::dependency_at, crate::specs::Reading::in_parentheses))]
    fn read(tokens: &[Token]) -> Result<(Dependency, &[Token]), Stop> {
        let (name, rest) = name_of(tokens)?;
        let inside = behind(Token::OpenParenthesis, Reason::NoOpenParenthesis, rest)?;
        let (number, rest) = long_of(inside)?;
        let rest = behind(Token::CloseParenthesis, Reason::NoCloseParenthesis, rest)?;
        let rest = behind(Token::Version, Reason::NoVersion, rest)?;
        let (version, rest) = small_of(rest)?;
        Ok((
            Dependency {
                name,
                number,
                version,
            },
            rest,
        ))
    }
}

/// The programs that are depended upon; none where `DEPENDS` does not stand first.
#[tactic(auto, unfolding(crate::specs::Reading::optional))]
fn dependencies_of(alloc: Global, tokens: &[Token]) -> Result<(Vec<Dependency>, &[Token]), Stop>
    ensures exact { Gives (λ x. (x.0.items, x.1.now)) result (dependencies_at tokens.now) }
    ensures memory { IfNoMemory result (DependenciesWant tokens.now) }
{
    match tokens {
        [Token::Depends, rest @ ..] => enclosed(
            alloc,
            (Token::Upon, Reason::NoUpon),
            (Token::Semicolon, Reason::NoSemicolon),
            rest,
        ),
        _ => Ok((Vec::new(alloc), tokens)),
    }
}

/// The name, the number and the version of the program, up to its `BEGIN`.
#[tactic(auto, unfolding(crate::specs::Programs::header_at))]
fn header_of(tokens: &[Token]) -> Result<((u32, u32, u16), &[Token]), Stop>
    ensures { Finds (λ x. (x.0, x.1.now)) result (header_at tokens.now) }
{
    let (name, rest) = name_of(tokens)?;
    let rest = behind(Token::Colon, Reason::NoColon, rest)?;
    let rest = behind(Token::Program, Reason::NoProgram, rest)?;
    let (number, rest) = long_of(rest)?;
    let rest = behind(Token::Version, Reason::NoVersion, rest)?;
    let (version, rest) = small_of(rest)?;
    let rest = behind(Token::Equal, Reason::NoEqual, rest)?;
    let rest = behind(Token::Begin, Reason::NoBegin, rest)?;
    Ok(((name, number, version), rest))
}

/// The dependencies and the declarations, up to the dot.
#[tactic(auto, unfolding(crate::specs::Programs::body_at))]
fn body_of(
    alloc: Global,
    tokens: &[Token],
) -> Result<((Vec<Dependency>, Vec<Declaration>), &[Token]), Stop>
    ensures exact { Gives (λ x. ((x.0.0.items, declaration_views x.0.1.items), x.1.now)) result (body_at tokens.now) }
    ensures memory { IfNoMemory result (BodyWants tokens.now) }
{
    let (dependencies, rest) = dependencies_of(alloc, tokens)?;
    let (declarations, rest) = declarations_of(alloc, rest)?;
    let ended = behind(Token::End, Reason::NoEnd, rest)?;
    let rest = behind(Token::Dot, Reason::NoDot, ended)?;
    Ok(((dependencies, declarations), rest))
}

/// The program, if nothing stands behind it.
fn ended(program: WrittenProgram, tokens: &[Token]) -> Result<WrittenProgram, Stop>
    ensures { Finds program_view result (nothing_at (program_view program) tokens.now) }
{
    if tokens.len() > 0 {
        return Err(wrong(tokens, Reason::Trailing));
    }
    Ok(program)
}

/// The program that the tokens are, all of them; or the first fault.
///
/// `NoMemory` only where a growth was refused: of what stands behind `BEGIN`, a first dependency or declaration was read,
/// or the first declaration wants memory itself.
#[tactic(auto, unfolding(crate::specs::Programs::program_of))]
pub fn read_program(alloc: Global, tokens: &[Token]) -> Result<WrittenProgram, Stop>
    ensures exact { Gives program_view result (program_of tokens.now) }
    ensures memory { IfNoMemory result (Behind (header_at tokens.now) BodyWants) }
{
    let ((name, number, version), rest) = header_of(tokens)?;
    let ((dependencies, declarations), rest) = body_of(alloc, rest)?;
    ended(
        WrittenProgram {
            name,
            number,
            version,
            dependencies,
            declarations,
        },
        rest,
    )
}
