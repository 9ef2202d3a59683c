//! Calls that are rejected because their program or its version is not listed.

ghost use Rattle.std.specs.Prelude.{◌≡◌, List, ℕ, IfOk};
ghost use Rattle.courier_messages.specs.Head.{with_words};
ghost use Rattle.courier_messages.specs.Message.{message_words};
ghost use Rattle.courier_sessions.specs.Answering.{entry_for, why_unlisted, reject_message};

use crate::program::Program;
use courier_messages::Head;
use std::alloc::{AllocError, Global};

/// Why a call is not handed.
#[derive(Clone, Copy, Debug, PartialEq, Eq)]
pub enum Unlisted {
    /// The program of the call is not listed.
    Program,
    /// The program of the call is listed, in other versions: those from `low` to `high`.
    Version { low: u16, high: u16 },
}

/// The first entry of a program.
fn entry_for(programs: &[Program], program: u32) -> Option<Program>
    ensures { result ≡ entry_for programs.now program }
{
    let mut rest = programs;
    while let [first, others @ ..] = rest {
        if first.number == program {
            return Some(*first);
        }
        rest = others;
    }
    None
}

/// Why a call with this head is not handed, if it isn't. Where no program is listed, each call is handed.
pub fn refusal(programs: &[Program], head: Head) -> Option<Unlisted>
    ensures { (words : List ℕ) → result ≡ why_unlisted programs.now (with_words head words) }
{
    let Head::Call {
        program,
        version,
        ..
    } = head
    else {
        return None;
    };
    if programs.is_empty() {
        return None;
    }
    let Some(entry) = entry_for(programs, program) else {
        return Some(Unlisted::Program);
    };
    if version < entry.lowest || entry.highest < version {
        return Some(Unlisted::Version {
            low: entry.lowest,
            high: entry.highest,
        });
    }
    None
}

/// The words of the reject of a call that is not handed.
pub fn reject_words(
    alloc: Global,
    transaction: u16,
    unlisted: Unlisted,
) -> Result<Vec<u16>, AllocError>
    ensures { IfOk result (λ w. w.items ≡ message_words (reject_message transaction unlisted)) }
{
    match unlisted {
        Unlisted::Program => Vec::from_slice(alloc, &[1, transaction, 0]),
        Unlisted::Version { low, high } => Vec::from_slice(alloc, &[1, transaction, 1, low, high]),
    }
}
