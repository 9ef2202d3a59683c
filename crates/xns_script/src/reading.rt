//! Reading a line.
ghost use Rattle.std.specs.Prelude.{◌≡◌, ◌∷◌, [], Some, None, IfOk, option_map};
ghost use Rattle.courier_calls.specs.Calls.{call_model};
ghost use Rattle.xns_script.specs.Command.{add_call as add_call_of, calls, command_in, command_model, command_of, foreign_of, one_word};
ghost use Rattle.xns_script.specs.Command.{raw_call_of, three_words, total_call as total_call_of, two_words};
ghost use Rattle.xns_script.specs.Word.{hex_bytes_of, number_of, raw_words_of, side_of, words_after, words_of_line};

use crate::command::Command;
use crate::words::{cut_word, is, read_hex_bytes, read_number, read_raw_words, read_side};
use courier_calls::{Arguments, Call};
use courier_messages::Words;
use courier_types::Value;
use item_world::Event;
use std::alloc::{AllocError, Global};

const MOST_WORD: u32 = 65_535;

/// What a line says, or `None` where it is refused. Words are parted by one space, and a decimal has no leading zero but
/// 0 itself. An empty line and one that begins with `#` say nothing; else a line is `call add N`, `call total`,
/// `call raw PROGRAM VERSION PROCEDURE WORDS`, `tick a` or `tick b`, `deliver N`, `rest`, `foreign a HEX` or
/// `foreign b HEX`.
#[tactic(auto, unfolding(crate::specs::Command::command_of))]
pub fn read_command(alloc: Global, line: &[u8]) -> Result<Option<Command>, AllocError>
    ensures { IfOk result (λ answer. option_map command_model answer ≡ command_of line.now) }
{
    match line {
        [] => Ok(Some(Command::Skip)),
        [b'#', ..] => Ok(Some(Command::Skip)),
        _ => read_words(alloc, line),
    }
}

fn read_words(alloc: Global, line: &[u8]) -> Result<Option<Command>, AllocError>
    ensures { IfOk result (λ answer. option_map command_model answer ≡ command_in (words_of_line line.now)) }
{
    let (first, rest) = cut_word(line);
    match rest {
        None => Ok(read_one(first)),
        Some(rest) => read_after_one(alloc, first, rest),
    }
}

fn read_one(first: &[u8]) -> Option<Command>
    ensures { option_map command_model result ≡ one_word first.now }
{
    if is(first, b"rest") {
        Some(Command::Happen(Event::Rest))
    } else {
        None
    }
}

fn read_after_one(alloc: Global, first: &[u8], line: &[u8]) -> Result<Option<Command>, AllocError>
    ensures { IfOk result (λ answer. option_map command_model answer ≡ command_in (first.now ∷ words_of_line line.now)) }
{
    let (second, rest) = cut_word(line);
    match rest {
        None => Ok(read_two(alloc, first, second)),
        Some(rest) => read_after_two(alloc, first, second, rest),
    }
}

fn read_two(alloc: Global, first: &[u8], second: &[u8]) -> Option<Command>
    ensures { option_map command_model result ≡ two_words first.now second.now }
{
    if is(first, b"deliver") {
        let number = read_number(u32::MAX, second)?;
        return Some(Command::Happen(Event::Deliver(number as usize)));
    }
    if is(first, b"tick") {
        let side = read_side(second)?;
        return Some(Command::Happen(Event::Tick(side)));
    }
    if is(first, b"call") && is(second, b"total") {
        return Some(Command::Call(total_call(alloc)));
    }
    None
}

fn total_call(alloc: Global) -> Call
    ensures { call_model result ≡ total_call_of }
{
    Call {
        program: 7,
        version: 2,
        procedure: 2,
        arguments: Arguments::Typed(Value::Fields(Vec::new(alloc))),
    }
}

fn read_after_two(
    alloc: Global,
    first: &[u8],
    second: &[u8],
    line: &[u8],
) -> Result<Option<Command>, AllocError>
    ensures { IfOk result (λ answer. option_map command_model answer ≡ command_in (first.now ∷ second.now ∷ words_of_line line.now)) }
{
    let (third, rest) = cut_word(line);
    match rest {
        None => read_three(alloc, first, second, third),
        Some(rest) => read_after_three(alloc, first, second, third, rest),
    }
}

fn read_three(
    alloc: Global,
    first: &[u8],
    second: &[u8],
    third: &[u8],
) -> Result<Option<Command>, AllocError>
    ensures { IfOk result (λ answer. option_map command_model answer ≡ three_words first.now second.now third.now) }
{
    if is(first, b"call") && is(second, b"add") {
        return Ok(read_add(third));
    }
    if is(first, b"foreign") {
        return read_foreign(alloc, second, third);
    }
    Ok(None)
}

fn read_add(number: &[u8]) -> Option<Command>
    ensures { option_map command_model result ≡ option_map (λ n. calls (add_call_of n)) (number_of 65535 number.now) }
{
    let number = read_number(MOST_WORD, number)?;
    Some(Command::Call(add_call(number as u16)))
}

fn add_call(number: u16) -> Call
    ensures { call_model result ≡ add_call_of number }
{
    Call {
        program: 7,
        version: 2,
        procedure: 1,
        arguments: Arguments::Typed(Value::Cardinal(number)),
    }
}

fn read_foreign(alloc: Global, side: &[u8], digits: &[u8]) -> Result<Option<Command>, AllocError>
    ensures { IfOk result (λ answer. option_map command_model answer ≡ foreign_of (side_of side.now) (hex_bytes_of digits.now)) }
{
    let Some(side) = read_side(side) else {
        return Ok(None);
    };
    let Some(bytes) = read_hex_bytes(alloc, digits)? else {
        return Ok(None);
    };
    Ok(Some(Command::Happen(Event::Foreign(side, bytes))))
}

fn read_after_three(
    alloc: Global,
    first: &[u8],
    second: &[u8],
    program: &[u8],
    line: &[u8],
) -> Result<Option<Command>, AllocError>
    ensures { IfOk result (λ answer. option_map command_model answer
        ≡ command_in (first.now ∷ second.now ∷ program.now ∷ words_of_line line.now)) }
{
    let (version, rest) = cut_word(line);
    match rest {
        None => Ok(None),
        Some(rest) => read_after_four(alloc, first, second, program, version, rest),
    }
}

fn read_after_four(
    alloc: Global,
    first: &[u8],
    second: &[u8],
    program: &[u8],
    version: &[u8],
    line: &[u8],
) -> Result<Option<Command>, AllocError>
    ensures { IfOk result (λ answer. option_map command_model answer
        ≡ command_in (first.now ∷ second.now ∷ program.now ∷ version.now ∷ words_of_line line.now)) }
{
    let (procedure, words) = cut_word(line);
    if is(first, b"call") && is(second, b"raw") {
        return read_raw(alloc, program, version, procedure, words);
    }
    Ok(None)
}

fn read_raw(
    alloc: Global,
    program: &[u8],
    version: &[u8],
    procedure: &[u8],
    words: Option<&[u8]>,
) -> Result<Option<Command>, AllocError>
    ensures { IfOk result (λ answer. option_map command_model answer
        ≡ raw_call_of (number_of 4294967295 program.now) (number_of 65535 version.now) (number_of 65535 procedure.now)
        (raw_words_of (words_after (option_map (λ rest. rest.now) words.entry)))) }
{
    let Some(program) = read_number(u32::MAX, program) else {
        return Ok(None);
    };
    let Some(version) = read_number(MOST_WORD, version) else {
        return Ok(None);
    };
    let Some(procedure) = read_number(MOST_WORD, procedure) else {
        return Ok(None);
    };
    let Some(line) = words else {
        return Ok(None);
    };
    let Some(words) = read_raw_words(alloc, line)? else {
        return Ok(None);
    };
    Ok(Some(Command::Call(Call {
        program,
        version: version as u16,
        procedure: procedure as u16,
        arguments: Arguments::Raw(Words::new(words)),
    })))
}
