//! The texts of calls, returns and aborts by name and value, and the tables of programs.

ghost use Rattle.std.specs.Prelude.{◌≡◌, ◌≢◌, slice_get};
ghost use Rattle.call_texts.specs.Calls.{AbortWants, CallWants, ReturnWants, abort_shown, call_shown, return_shown};
ghost use Rattle.xns_c.specs.Programs.{GivesTable, GivesText, TableWants, programs_of};
ghost use Rattle.xns_c.specs.Results.{no_memory};

use crate::giving::{give_program, give_text};
use crate::handling::Handle;
use crate::node::XnsNode;
use crate::programs_handle::XnsPrograms;
use crate::results::{NOTHING, OK};
use call_texts::{abort_text, call_text, return_text};
use std::alloc::Global;

/// Puts the text of a call with these words as arguments to the front of a buffer.
///
/// `NOTHING` where the program, in this version, or the procedure is not declared; `NO_MEMORY`; `TRUNCATED`, `NOT_BOOLEAN`, `NOT_LISTED`,
/// `OVER_MAXIMUM` or `LEFT_OVER` where the words are not exactly one value, and `place` is then the number, from 0, of the word with which
/// no value goes on; `TOO_LONG` over 1,048,576 bytes of text, and `place` is then 0; `SHORT_BUFFER`, and `written` is then the length of
/// the text.
#[unsafe(no_mangle)]
pub extern "C" fn xns_programs_call_text(
    alloc: Global,
    handle: &mut XnsPrograms,
    program: u32,
    version: u16,
    procedure: u16,
    words: &[u16],
    buffer: &mut [u8],
    written: &mut usize,
    place: &mut usize,
) -> u32
    ensures given { result ≢ no_memory → GivesText (call_shown (programs_of handle.old) program version procedure words.now)
        buffer.old buffer.new written.old written.new place.old place.new result }
    ensures wants { result ≡ no_memory → CallWants (programs_of handle.old) program version procedure words.now }
    ensures memory { result ≡ no_memory → (buffer.new ≡ buffer.old) × (written.new ≡ written.old) × (place.new ≡ place.old) }
    ensures same { programs_of handle.new ≡ programs_of handle.old }
{
    let shown = handle.ask(alloc, Ok(None), |kept| {
        call_text(alloc, &kept.programs, program, version, procedure, words)
    });
    give_text(shown, buffer, written, place)
}

/// Puts the text of a return of a call with these words as results to the front of a buffer.
///
/// `NOTHING` where the call's program, in this version, or its procedure is not declared; `NO_MEMORY`; `TRUNCATED`, `NOT_BOOLEAN`, `NOT_LISTED`,
/// `OVER_MAXIMUM` or `LEFT_OVER` where the words are not exactly one value, and `place` is then the number, from 0, of the word with which
/// no value goes on; `TOO_LONG` over 1,048,576 bytes of text, and `place` is then 0; `SHORT_BUFFER`, and `written` is then the length of
/// the text.
#[unsafe(no_mangle)]
pub extern "C" fn xns_programs_return_text(
    alloc: Global,
    handle: &mut XnsPrograms,
    program: u32,
    version: u16,
    procedure: u16,
    words: &[u16],
    buffer: &mut [u8],
    written: &mut usize,
    place: &mut usize,
) -> u32
    ensures given { result ≢ no_memory → GivesText (return_shown (programs_of handle.old) program version procedure words.now)
        buffer.old buffer.new written.old written.new place.old place.new result }
    ensures wants { result ≡ no_memory → ReturnWants (programs_of handle.old) program version procedure words.now }
    ensures memory { result ≡ no_memory → (buffer.new ≡ buffer.old) × (written.new ≡ written.old) × (place.new ≡ place.old) }
    ensures same { programs_of handle.new ≡ programs_of handle.old }
{
    let shown = handle.ask(alloc, Ok(None), |kept| {
        return_text(alloc, &kept.programs, program, version, procedure, words)
    });
    give_text(shown, buffer, written, place)
}

/// Puts the text of an abort of a call with these words as the error's arguments to the front of a buffer.
///
/// `NOTHING` where the call's program, in this version, or the error is not declared; `NO_MEMORY`; `TRUNCATED`, `NOT_BOOLEAN`, `NOT_LISTED`,
/// `OVER_MAXIMUM` or `LEFT_OVER` where the words are not exactly one value, and `place` is then the number, from 0, of the word with which
/// no value goes on; `TOO_LONG` over 1,048,576 bytes of text, and `place` is then 0; `SHORT_BUFFER`, and `written` is then the length of
/// the text.
#[unsafe(no_mangle)]
pub extern "C" fn xns_programs_abort_text(
    alloc: Global,
    handle: &mut XnsPrograms,
    program: u32,
    version: u16,
    error: u16,
    words: &[u16],
    buffer: &mut [u8],
    written: &mut usize,
    place: &mut usize,
) -> u32
    ensures given { result ≢ no_memory → GivesText (abort_shown (programs_of handle.old) program version error words.now)
        buffer.old buffer.new written.old written.new place.old place.new result }
    ensures wants { result ≡ no_memory → AbortWants (programs_of handle.old) program version error words.now }
    ensures memory { result ≡ no_memory → (buffer.new ≡ buffer.old) × (written.new ≡ written.old) × (place.new ≡ place.old) }
    ensures same { programs_of handle.new ≡ programs_of handle.old }
{
    let shown = handle.ask(alloc, Ok(None), |kept| {
        abort_text(alloc, &kept.programs, program, version, error, words)
    });
    give_text(shown, buffer, written, place)
}

/// Tells the number and the version of the program that was read as this one, from 0 on, and puts the nodes of its table to the front of a
/// buffer, and their names, each with a 0 behind it, to the front of another one.
///
/// `NOTHING` where fewer programs were read; `NO_MEMORY`; `SHORT_BUFFER` where one of the buffers is too short: `count` and `length` are then
/// the nodes and the bytes that there are.
#[unsafe(no_mangle)]
pub extern "C" fn xns_programs_table(
    alloc: Global,
    handle: &mut XnsPrograms,
    index: usize,
    number: &mut u32,
    version: &mut u16,
    nodes: &mut [XnsNode],
    count: &mut usize,
    names: &mut [u8],
    length: &mut usize,
) -> u32
    ensures given { result ≢ no_memory → GivesTable (slice_get (programs_of handle.old) index) (number.old, version.old)
        (number.new, version.new) nodes.old nodes.new names.old names.new (count.old, length.old) (count.new, length.new) result }
    ensures wants { result ≡ no_memory → TableWants (slice_get (programs_of handle.old) index) }
    ensures memory { result ≡ no_memory → (nodes.new ≡ nodes.old) × (names.new ≡ names.old) × (count.new ≡ count.old) × (length.new ≡ length.old)
        × (number.new ≡ number.old) × (version.new ≡ version.old) }
    ensures same { programs_of handle.new ≡ programs_of handle.old }
{
    let Some(kept) = handle.take(alloc) else {
        return NOTHING;
    };
    let result = match kept.programs.get(index) {
        Some(program) => {
            let result = give_program(alloc, program, nodes, count, names, length);
            if result == OK {
                (*number, *version) = (program.number, program.version);
            }
            result
        }
        None => NOTHING,
    };
    handle.put(kept);
    result
}
