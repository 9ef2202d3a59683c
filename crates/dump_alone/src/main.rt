//! `xns dump` as a program of its own, without the other commands and the command line: it reads lines of hex from standard input
//! and prints what they say. It stands on half as much as `xns`, so a fresh clone has it proved sooner. It ends with 0, or with 1
//! where a line was refused and 3 after a fault, which one line on standard error names.
#![tactic(auto)]

ghost use Rattle.std.specs.Prelude.{◌≡◌, MatchResult, if◌then◌else◌};

use std::io;
use std::process::ExitCode;
use xns_dump::dump;
use xns_lines::RunFault;

fn main(rt: HostRuntime) -> ExitCode {
    let answer = dump(rt.alloc(), &mut rt.reader(), &mut io::writer(&rt));
    if let Err(fault) = &answer {
        let _ = eprintln!(&rt; "xns: {fault}");
    }
    ExitCode::from(status(&answer))
}

/// The exit status for an answer, as that of `xns`.
fn status(answer: &Result<bool, RunFault>) -> u8
    ensures { MatchResult answer.now (λ refused. result ≡ (if refused then 1 else 0)) (λ _. result ≡ 3) }
{
    match answer {
        Ok(refused) => u8::from(*refused),
        Err(_) => 3,
    }
}
