//! Programs of Courier's notation, which C holds by their handle (XSIS 038112, Courier, Remote programs).

ghost use Rattle.std.specs.Prelude.{◌≡◌, ◌≢◌, [], None};
ghost use Rattle.courier_programs.specs.Scopes.{program_by};
ghost use Rattle.courier_programs.specs.Texts.{text_meant};
ghost use Rattle.xns_c.specs.Given.{IsTold};
ghost use Rattle.xns_c.specs.Programs.{GivesBytes, ReadingWants, ReadsText, TellsProgram, error_called_in, error_name, error_number};
ghost use Rattle.xns_c.specs.Programs.{error_numbered_in, kept_programs_of, procedure_called_in, procedure_name, procedure_number};
ghost use Rattle.xns_c.specs.Programs.{procedure_numbered_in, program_called, given_program_name, programs_of};
ghost use Rattle.xns_c.specs.Results.{nothing, no_memory};

use crate::finding::{
    find_error, find_procedure, name_of_error, name_of_procedure, name_of_program,
};
use crate::giving::{give_name, tell_program};
use crate::handling::Handle;
use crate::kept_programs::KeptPrograms;
use crate::notation_fault::XnsNotationFault;
use crate::programs_handle::XnsPrograms;
use crate::results::{NO_MEMORY, NOTHING, OK};
use crate::told::tell;
use std::alloc::Global;

/// Reads the first text of a handle.
fn read_first(
    alloc: Global,
    handle: &mut XnsPrograms,
    text: &[u8],
    fault: &mut XnsNotationFault,
) -> u32
    requires { kept_programs_of handle.old ≡ None }
    ensures read { result ≢ no_memory → ReadsText (text_meant text.now []) text.now [] (programs_of handle.new) fault.old fault.new result }
    ensures memory { result ≡ no_memory → (programs_of handle.new ≡ []) × (fault.new ≡ fault.old) }
    ensures wants { result ≡ no_memory → ReadingWants text.now [] }
{
    let mut kept = KeptPrograms::none(alloc);
    let result = kept.read(alloc, text, fault);
    if result != OK {
        return result;
    }
    match Box::new(alloc, kept) {
        Ok(kept) => {
            handle.put(kept);
            OK
        }
        Err(_) => NO_MEMORY,
    }
}

/// Reads a text in Courier's notation, and puts the program that it is behind those that the handle has. What the program depends upon was
/// read before.
///
/// `WRONG_TEXT` with the first fault; `NO_MEMORY`. The programs are then as they were.
#[unsafe(no_mangle)]
pub extern "C" fn xns_programs_read(
    alloc: Global,
    handle: &mut XnsPrograms,
    text: &[u8],
    fault: &mut XnsNotationFault,
) -> u32
    ensures read { result ≢ no_memory → ReadsText (text_meant text.now (programs_of handle.old)) text.now
        (programs_of handle.old) (programs_of handle.new) fault.old fault.new result }
    ensures memory { result ≡ no_memory → (programs_of handle.new ≡ programs_of handle.old) × (fault.new ≡ fault.old) }
    ensures wants { result ≡ no_memory → ReadingWants text.now (programs_of handle.old) }
{
    let Some(mut kept) = handle.take(alloc) else {
        return read_first(alloc, handle, text, fault);
    };
    let result = kept.read(alloc, text, fault);
    handle.put(kept);
    result
}

/// Frees the programs. The handle then has none, and may be used again.
#[unsafe(no_mangle)]
pub extern "C" fn xns_programs_clear(alloc: Global, handle: &mut XnsPrograms)
    ensures { (kept_programs_of handle.new ≡ None) × (programs_of handle.new ≡ []) }
{
    let _freed = handle.take(alloc);
}

/// Tells the number and the version of the first program of this name.
///
/// `NOTHING` where none was read.
#[unsafe(no_mangle)]
pub extern "C" fn xns_programs_find(
    alloc: Global,
    handle: &mut XnsPrograms,
    name: &[u8],
    number: &mut u32,
    version: &mut u16,
) -> u32
    ensures told { TellsProgram (program_called (programs_of handle.old) name.now) (number.old, version.old) (number.new, version.new) result }
    ensures same { programs_of handle.new ≡ programs_of handle.old }
{
    let Some(kept) = handle.take(alloc) else {
        return NOTHING;
    };
    let result = tell_program(&kept.programs, name, number, version);
    handle.put(kept);
    result
}

/// Tells the number of the procedure of this name in a program.
///
/// `NOTHING` where the program was not read, or declares none.
#[unsafe(no_mangle)]
pub extern "C" fn xns_programs_find_procedure(
    alloc: Global,
    handle: &mut XnsPrograms,
    program: u32,
    version: u16,
    name: &[u8],
    number: &mut u16,
) -> u32
    ensures told { IsTold (procedure_number (procedure_called_in name.now (program_by (programs_of handle.old) program version))) nothing
        number.old number.new result }
    ensures same { programs_of handle.new ≡ programs_of handle.old }
{
    let found = handle.ask(alloc, None, |kept| {
        find_procedure(&kept.programs, program, version, name)
    });
    tell(found, NOTHING, number)
}

/// Tells the number of the error of this name in a program.
///
/// `NOTHING` where the program was not read, or declares none.
#[unsafe(no_mangle)]
pub extern "C" fn xns_programs_find_error(
    alloc: Global,
    handle: &mut XnsPrograms,
    program: u32,
    version: u16,
    name: &[u8],
    number: &mut u16,
) -> u32
    ensures told { IsTold (error_number (error_called_in name.now (program_by (programs_of handle.old) program version))) nothing
        number.old number.new result }
    ensures same { programs_of handle.new ≡ programs_of handle.old }
{
    let found = handle.ask(alloc, None, |kept| {
        find_error(&kept.programs, program, version, name)
    });
    tell(found, NOTHING, number)
}

/// Puts the name of a program to the front of a buffer.
///
/// `NOTHING` where it was not read; `SHORT_BUFFER`, and `written` is then the length of the name.
#[unsafe(no_mangle)]
pub extern "C" fn xns_programs_name(
    alloc: Global,
    handle: &mut XnsPrograms,
    program: u32,
    version: u16,
    buffer: &mut [u8],
    written: &mut usize,
) -> u32
    ensures given { GivesBytes (given_program_name (program_by (programs_of handle.old) program version)) buffer.old buffer.new
        written.old written.new result }
    ensures same { programs_of handle.new ≡ programs_of handle.old }
{
    let Some(kept) = handle.take(alloc) else {
        return NOTHING;
    };
    let name = name_of_program(&kept.programs, program, version);
    let result = give_name(name, buffer, written);
    handle.put(kept);
    result
}

/// Puts the name of a procedure of a program to the front of a buffer.
///
/// `NOTHING` where the program was not read, or declares none of this number; `SHORT_BUFFER`, and `written` is then the length of the name.
#[unsafe(no_mangle)]
pub extern "C" fn xns_programs_procedure_name(
    alloc: Global,
    handle: &mut XnsPrograms,
    program: u32,
    version: u16,
    procedure: u16,
    buffer: &mut [u8],
    written: &mut usize,
) -> u32
    ensures given { GivesBytes (procedure_name (procedure_numbered_in procedure (program_by (programs_of handle.old) program version)))
        buffer.old buffer.new written.old written.new result }
    ensures same { programs_of handle.new ≡ programs_of handle.old }
{
    let Some(kept) = handle.take(alloc) else {
        return NOTHING;
    };
    let name = name_of_procedure(&kept.programs, program, version, procedure);
    let result = give_name(name, buffer, written);
    handle.put(kept);
    result
}

/// Puts the name of an error of a program to the front of a buffer.
///
/// `NOTHING` where the program was not read, or declares none of this number; `SHORT_BUFFER`, and `written` is then the length of the name.
#[unsafe(no_mangle)]
pub extern "C" fn xns_programs_error_name(
    alloc: Global,
    handle: &mut XnsPrograms,
    program: u32,
    version: u16,
    error: u16,
    buffer: &mut [u8],
    written: &mut usize,
) -> u32
    ensures given { GivesBytes (error_name (error_numbered_in error (program_by (programs_of handle.old) program version)))
        buffer.old buffer.new written.old written.new result }
    ensures same { programs_of handle.new ≡ programs_of handle.old }
{
    let Some(kept) = handle.take(alloc) else {
        return NOTHING;
    };
    let name = name_of_error(&kept.programs, program, version, error);
    let result = give_name(name, buffer, written);
    handle.put(kept);
    result
}
