//! How messages are named by the programs that are given.
ghost use Rattle.std.specs.Prelude.{◌≡◌, IfOk, OnErr, Err};
ghost use Rattle.call_texts.specs.declared.unread.Unshown.TheVariants.{NoMemory};
ghost use Rattle.xns_calls.specs.Naming.{Declares, NamingAbortWants, NamingCallWants, NamingReturnWants, named_abort, named_call, named_return, shown_model};

use crate::shown::Shown;
use crate::waiting::Waiting;
use call_texts::{Unshown, abort_text, call_text, return_text};
use courier_programs::Program;
use std::alloc::{AllocError, Global};

/// What a text by name is shown as, or why there is none. The only error is want of memory.
fn shown(text: Result<Option<Vec<u8>>, Unshown>) -> Result<Shown, AllocError>
    ensures exact { IfOk result (λ shown. Declares text (shown_model shown)) }
    ensures memory { OnErr result (text ≡ Err NoMemory) }
{
    match text {
        Ok(Some(text)) => Ok(Shown::Named(text)),
        Ok(None) => Ok(Shown::Numbered),
        Err(Unshown::Unread(unread)) => Ok(Shown::Unread(unread)),
        Err(Unshown::NoMemory) => Err(AllocError),
    }
}

/// How a call is shown. The only error is want of memory, where a text by name was to be made.
pub fn name_call(
    alloc: Global,
    programs: Option<&[Program]>,
    call: &Waiting,
    words: &[u16],
) -> Result<Shown, AllocError>
    ensures exact { IfOk result (λ shown. shown_model shown
        ≡ named_call programs.entry call.now.program call.now.version call.now.procedure words.now) }
    ensures memory { OnErr result (NamingCallWants programs.entry call.now.program call.now.version call.now.procedure words.now) }
{
    let Waiting {
        program,
        version,
        procedure,
        ..
    } = *call;
    match programs {
        Some(programs) => shown(call_text(alloc, programs, program, version, procedure, words)),
        None => Ok(Shown::Numbered),
    }
}

/// How a return of that call is shown; where no call waited for it, by numbers. The only error is want of memory, where a
/// text by name was to be made.
pub fn name_return(
    alloc: Global,
    programs: Option<&[Program]>,
    of: Option<Waiting>,
    words: &[u16],
) -> Result<Shown, AllocError>
    ensures exact { IfOk result (λ shown. shown_model shown ≡ named_return programs.entry of words.now) }
    ensures memory { OnErr result (NamingReturnWants programs.entry of words.now) }
{
    match (programs, of) {
        (Some(programs), Some(call)) => shown(return_text(
            alloc,
            programs,
            call.program,
            call.version,
            call.procedure,
            words,
        )),
        _ => Ok(Shown::Numbered),
    }
}

/// How an abort of that call with this error is shown; where no call waited for it, by numbers. The only error is want of memory, where a
/// text by name was to be made.
pub fn name_abort(
    alloc: Global,
    programs: Option<&[Program]>,
    of: Option<Waiting>,
    error: u16,
    words: &[u16],
) -> Result<Shown, AllocError>
    ensures exact { IfOk result (λ shown. shown_model shown ≡ named_abort programs.entry of error words.now) }
    ensures memory { OnErr result (NamingAbortWants programs.entry of error words.now) }
{
    match (programs, of) {
        (Some(programs), Some(call)) => shown(abort_text(
            alloc,
            programs,
            call.program,
            call.version,
            error,
            words,
        )),
        _ => Ok(Shown::Numbered),
    }
}
