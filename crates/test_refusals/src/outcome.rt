//! The outcome of a function that may be refused memory.

use std::alloc::AllocError;

/// The outcome of a function that could be called.
#[derive(Clone, Copy)]
pub enum Outcome {
    Done,
    Refused,
    Broken,
}

/// The outcome of a function that came through, with the right result or not.
pub fn done(right: bool) -> Outcome {
    if right {
        Outcome::Done
    } else {
        Outcome::Broken
    }
}

/// The outcome of a function that was refused memory: whether all stood as before, and whether it returned the right result when it
/// was called again.
pub fn refused(as_before: bool, right: bool) -> Outcome {
    if as_before && right {
        Outcome::Refused
    } else {
        Outcome::Broken
    }
}

/// The outcome as it is printed; an error is that of making what the call is given.
pub fn text(outcome: &Result<Outcome, AllocError>) -> &'static str {
    match outcome {
        Ok(Outcome::Done) => "done",
        Ok(Outcome::Refused) => "refused, then done",
        Ok(Outcome::Broken) => "broken",
        Err(AllocError) => "not called",
    }
}
