//! The programs that files describe: `xns programs` prints them, and `xns calls` names calls by them.
ghost use Rattle.std.specs.Prelude.{◌≤◌};

use crate::STANDARD_INPUT;
use crate::watched::{WatchedReader, WatchedWriter};
use courier_programs::{Program, ProgramReason};
use std::fs::File;
use std::io::{self, Read};
use xns_command::{DescriptionFault, description_status, print_description, take_description};
use xns_lines::RunFault;

/// What a description is read for.
#[derive(Clone, Copy)]
enum Purpose {
    /// To name calls by its program.
    Naming,
    /// To print its program.
    Printing,
}

/// Prints the programs that the files describe, in order, up to the first fault, and says in one line what that is.
pub fn run_programs(rt: &HostRuntime, files: &[&str]) -> u8
    ensures { result ≤ 3 }
{
    let mut programs = Vec::new(rt.alloc());
    description_status(&read_files(rt, files, Purpose::Printing, &mut programs))
}

/// Reads the programs that the files describe, in order, up to the first fault, and says in one line what that is.
pub fn read_programs(
    rt: &HostRuntime,
    files: &[&str],
    programs: &mut Vec<Program>,
) -> Result<(), DescriptionFault> {
    read_files(rt, files, Purpose::Naming, programs)
}

/// Reads the programs that the files describe, each behind those that were read before, up to the first fault.
fn read_files(
    rt: &HostRuntime,
    files: &[&str],
    purpose: Purpose,
    programs: &mut Vec<Program>,
) -> Result<(), DescriptionFault> {
    for path in files {
        read_named(rt, *path, purpose, programs)?;
    }
    Ok(())
}

/// Reads the program that the file of that name describes, or standard input where the name is `-`.
fn read_named(
    rt: &HostRuntime,
    path: &str,
    purpose: Purpose,
    programs: &mut Vec<Program>,
) -> Result<(), DescriptionFault> {
    if path == STANDARD_INPUT {
        return read(rt, path, rt.reader(), purpose, programs);
    }
    match File::open(rt, path) {
        Ok(file) => read(rt, path, file, purpose, programs),
        Err(error) => {
            let _ = eprintln!(rt; "xns: {path}: {error}");
            Err(DescriptionFault::Run(RunFault::Read))
        }
    }
}

/// Reads the program that a file of that name describes, and says in one line what is wrong, if anything is.
fn read<R: Read + Drop>(
    rt: &HostRuntime,
    path: &str,
    file: R,
    purpose: Purpose,
    programs: &mut Vec<Program>,
) -> Result<(), DescriptionFault> {
    let mut reader = WatchedReader::new(file);
    let mut writer = WatchedWriter::new(io::writer(rt));
    let answer = match purpose {
        Purpose::Naming => take_description(rt.alloc(), &mut reader, programs),
        Purpose::Printing => print_description(rt.alloc(), &mut reader, &mut writer, programs),
    };
    if let Err(fault) = &answer {
        explain_fault(rt, path, *fault, reader.error(), writer.is_closed());
    }
    answer
}

/// Says in one line what is wrong, of a text the place and the name of the reason; nothing where nobody reads what is written any more.
fn explain_fault(
    rt: &HostRuntime,
    path: &str,
    fault: DescriptionFault,
    error: Option<&io::Error>,
    is_closed: bool,
) {
    let _ = match (fault, error) {
        (DescriptionFault::Run(RunFault::Write), _) if is_closed => Ok(()),
        (DescriptionFault::Run(RunFault::Read), Some(error)) => {
            eprintln!(rt; "xns: {path}: {error}")
        }
        (DescriptionFault::Run(fault), _) => eprintln!(rt; "xns: {path}: {fault}"),
        (
            DescriptionFault::Wrong {
                line,
                column,
                reason,
            },
            _,
        ) => match reason {
            ProgramReason::Notation(reason) => eprintln!(rt; "{path}:{line}:{column} {reason:?}"),
            ProgramReason::Name(reason) => eprintln!(rt; "{path}:{line}:{column} {reason:?}"),
        },
    };
}
