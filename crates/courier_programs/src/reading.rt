//! Programs read from texts.

ghost use Rattle.std.specs.Prelude.{◌≡◌, ◌≤◌, IsOk, length, take};
ghost use Rattle.courier_notation.specs.Lexing.{HasToken, lexing_view, most_text};
ghost use Rattle.courier_notation.specs.ProgramModels.{program_view};
ghost use Rattle.courier_notation.specs.Programs.{header_at, program_of};
ghost use Rattle.courier_notation.specs.Failing.{Gives, IfNoMemory};
ghost use Rattle.courier_programs.specs.Meanings.{resolved_model};
ghost use Rattle.courier_programs.specs.Memory.{ResolvingWants};
ghost use Rattle.courier_programs.specs.Resolving.{resolved};
ghost use Rattle.courier_programs.specs.Scopes.{names_seen};
ghost use Rattle.courier_programs.specs.Texts.{index_place, is_name as is_name_of, name_index, name_told, position_behind, text_meant};
ghost use Rattle.courier_programs.specs.Texts.{token_place, written_told};

use crate::program::Program;
use crate::program_refusal::{ProgramReason, ProgramRefusal};
use crate::refusal::Refusal;
use crate::resolving::resolve;
use courier_notation::{Lexed, Stop, Token, WrittenProgram, lex, read_program};
use std::alloc::Global;

fn is_name(token: Token, name: u32) -> bool
    ensures { result ≡ is_name_of name token }
{
    match token {
        Token::Name(other) => other == name,
        _ => false,
    }
}

/// The place of the token of that index.
fn place_of_token(text: &[u8], left: &[usize], index: usize) -> usize
    ensures { result ≡ token_place text.now left.now index }
{
    match left.get(index) {
        Some(bytes) => text.len().saturating_sub(*bytes),
        None => text.len(),
    }
}

/// The index of the token that is the name.
fn index_of_name(tokens: &[Token], name: u32) -> Option<usize>
    ensures { result ≡ name_index tokens.now name }
{
    for (i, token) in tokens.iter().enumerate() {
        if is_name(*token, name) {
            return Some(i);
        }
    }
    None
}

fn place_of_name(text: &[u8], lexed: &Lexed, name: u32) -> usize
    ensures { result ≡ index_place text.now (lexing_view lexed.now).left (name_index (lexing_view lexed.now).tokens name) }
{
    match index_of_name(&lexed.tokens, name) {
        Some(index) => place_of_token(text, &lexed.left, index),
        None => text.len(),
    }
}

/// A program whose names are resolved; a fault of a name is told by its place.
fn resolve_text(
    alloc: Global,
    text: &[u8],
    before: &[Program],
    lexed: &Lexed,
    written: &WrittenProgram,
) -> Result<Program, ProgramRefusal>
    ensures exact { Gives resolved_model result (name_told text.now (lexing_view lexed.now) (resolved (lexing_view lexed.now).names before.now (program_view written.now))) }
    ensures memory { IfNoMemory result (ResolvingWants before.now (program_view written.now)) }
{
    match resolve(alloc, &lexed.names, before, written) {
        Ok(program) => Ok(program),
        Err(
            Refusal::Wrong {
                place: name,
                reason,
            },
        ) => Err(ProgramRefusal::Wrong {
            place: place_of_name(text, lexed, name),
            reason: ProgramReason::Name(reason),
        }),
        Err(Refusal::NoMemory) => Err(ProgramRefusal::NoMemory),
    }
}

/// A program read from its tokens; a fault of the grammar is told by its place.
fn read_lexed(
    alloc: Global,
    text: &[u8],
    before: &[Program],
    lexed: &Lexed,
) -> Result<Program, ProgramRefusal>
    ensures exact { Gives resolved_model result (written_told text.now before.now (lexing_view lexed.now) (program_of (lexing_view lexed.now).tokens)) }
    ensures memory { IfNoMemory result (IsOk (header_at (lexing_view lexed.now).tokens)) }
{
    match read_program(alloc, &lexed.tokens) {
        Ok(written) => resolve_text(alloc, text, before, lexed, &written),
        Err(Stop::Wrong { place, reason }) => {
            let index = lexed.tokens.len().saturating_sub(place);
            Err(ProgramRefusal::Wrong {
                place: place_of_token(text, &lexed.left, index),
                reason: ProgramReason::Notation(reason),
            })
        }
        Err(Stop::NoMemory) => Err(ProgramRefusal::NoMemory),
    }
}

/// The program that a text in Courier's notation is, behind the programs that were read before it.
///
/// `Wrong` has the first fault and its place: of the tokens, of the grammar, or of the names. `NoMemory` only
/// where a growth was refused: the text begins with a token, and has no more bytes than a text may have.
#[tactic(auto, unfolding(crate::specs::Texts::text_meant))]
pub fn read_text(alloc: Global, text: &[u8], before: &[Program]) -> Result<Program, ProgramRefusal>
    ensures exact { Gives resolved_model result (text_meant text.now before.now) }
    ensures memory { IfNoMemory result (HasToken text.now) }
    ensures fits { IfNoMemory result (length text.now ≤ most_text) }
{
    match lex(alloc, text) {
        Ok(lexed) => read_lexed(alloc, text, before, &lexed),
        Err(Stop::Wrong { place, reason }) => Err(ProgramRefusal::Wrong {
            place: text.len().saturating_sub(place),
            reason: ProgramReason::Notation(reason),
        }),
        Err(Stop::NoMemory) => Err(ProgramRefusal::NoMemory),
    }
}
