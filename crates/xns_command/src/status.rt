//! The statuses of the program.
ghost use Rattle.std.specs.Prelude.{◌≡◌, ◌≢◌, MatchResult, Ok, false, true};
ghost use Rattle.xns_command.specs.Descriptions.{status_of};

use crate::description_fault::DescriptionFault;
use crate::refusal::Refusal;

/// All is fine, or help was asked for.
const FINE: u8 = 0;
/// A line or a packet was refused.
const LINE_REFUSED: u8 = 1;
/// The command line is wrong, or a description of a program that it names.
const WRONG_WORDS: u8 = 2;
/// Reading or writing failed, a limit was passed, a capture cannot be read on, or there was no memory.
const FAULT: u8 = 3;

/// The program's exit status for what a mode returned: 0 where all was fine, 1 where something was refused, 3 after a fault,
/// whatever it was. No mode ends with 2, which is for a wrong command line.
pub fn answer_status<E>(answer: &Result<bool, E>) -> u8
    ensures fine { answer.now ≡ Ok false → result ≡ 0 }
    ensures refused { answer.now ≡ Ok true → result ≡ 1 }
    ensures fault { MatchResult answer.now (λ _. result ≢ 3) (λ _. result ≡ 3) }
    ensures never { result ≢ 2 }
{
    match answer {
        Ok(false) => FINE,
        Ok(true) => LINE_REFUSED,
        Err(_) => FAULT,
    }
}

/// The program's exit status for what reading descriptions of programs returned: 0 where all was fine, 2 where a description is
/// wrong, 3 after another fault.
pub fn description_status(answer: &Result<(), DescriptionFault>) -> u8
    ensures { result ≡ status_of answer.now }
{
    match answer {
        Ok(()) => FINE,
        Err(DescriptionFault::Wrong { .. }) => WRONG_WORDS,
        Err(DescriptionFault::Run(_)) => FAULT,
    }
}

/// The program's exit status for words that name no mode: 0 for help, 3 where there was no memory, else 2.
pub fn refusal_status(refusal: Refusal) -> u8
    ensures help { refusal ≡ Refusal.Help → result ≡ 0 }
    ensures memory { refusal ≡ Refusal.NoMemory → result ≡ 3 }
    ensures mistake { refusal ≡ Refusal.Mistake → result ≡ 2 }
{
    match refusal {
        Refusal::Help => FINE,
        Refusal::NoMemory => FAULT,
        Refusal::Mistake => WRONG_WORDS,
    }
}
