//! Reads descriptions of programs in Courier's notation, and prints the calls, returns and aborts of its input by name. A
//! second account is compared with what it prints.
//!
//! The arguments are files, each of which may depend upon those before it; the first fault is printed as `FILE:LINE:COLUMN
//! REASON`. Each line of standard input is `call PROGRAM VERSION PROCEDURE WORDS`, `return PROGRAM VERSION PROCEDURE WORDS`
//! or `abort PROGRAM VERSION ERROR WORDS`, and its result is printed.
#![tactic(auto)]

mod answers;

use answers::answer;
use courier_programs::{Program, ProgramReason, ProgramRefusal, line_and_column, read_text};
use std::alloc::{AllocError, Global};
use std::{env, fs};

/// The name of a reason.
fn reason_name(alloc: Global, reason: ProgramReason) -> Result<String, AllocError> {
    match reason {
        ProgramReason::Notation(reason) => format!(in alloc; "{reason:?}"),
        ProgramReason::Name(reason) => format!(in alloc; "{reason:?}"),
    }
}

/// Reads the text of a file, and returns whether it is a program. If it is none, its fault is printed.
fn take_text(
    rt: &HostRuntime,
    file: &str,
    text: &[u8],
    programs: &mut Vec<Program>,
) -> Result<bool, anyhow::Error> {
    match read_text(rt.alloc(), text, programs) {
        Ok(program) => {
            programs.push(program)?;
            Ok(true)
        }
        Err(ProgramRefusal::Wrong { place, reason }) => {
            let (line, column) = line_and_column(text, place);
            let reason = reason_name(rt.alloc(), reason)?;
            println!(rt; "{file}:{line}:{column} {reason}")?;
            Ok(false)
        }
        Err(ProgramRefusal::NoMemory) => {
            println!(rt; "{file}: no memory")?;
            Ok(false)
        }
    }
}

fn main(rt: HostRuntime) -> Result<(), anyhow::Error> {
    let alloc = rt.alloc();
    let mut programs = Vec::new(alloc);
    let mut is_first = true;
    for file in env::args(&rt)? {
        if is_first {
            is_first = false;
            continue;
        }
        let text = fs::read(&rt, file.as_str())?;
        if !take_text(&rt, file.as_str(), &text, &mut programs)? {
            return Ok(());
        }
    }
    for line in rt.lines(alloc) {
        let text = answer(alloc, &programs, line?.as_str())?;
        println!(rt; "{text}")?;
    }
    Ok(())
}
