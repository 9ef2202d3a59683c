//! Why there is no result.

ghost use Rattle.std.specs.Prelude.{◌≡◌};
ghost use Rattle.courier_notation.specs.declared.failure.Failure.TheVariants.{NoMemory};

use std::alloc::{AllocError, AllocFailed};
use std::fmt::Display;
use thiserror::Error;

/// Why there is no result: a fault and its place, or want of memory.
#[derive(Debug, Drop, PartialEq, Eq, Error)]
#[error_bound(R: Display)]
pub enum Failure<P, R> {
    /// The first fault: where it is, and what is wrong there.
    #[error("{reason}")]
    Wrong { place: P, reason: R },
    /// A growth was refused.
    #[error("no memory")]
    NoMemory,
}

impl<P, R> From<AllocError> for Failure<P, R> {
    ghost from_gives = { λ _ e. e ≡ NoMemory };

    fn from(_e: AllocError) -> Failure<P, R> {
        Failure::NoMemory
    }
}

impl<P, R, T: Drop> From<AllocFailed<T>> for Failure<P, R> {
    ghost from_gives = { λ _ e. e ≡ NoMemory };

    fn from(_e: AllocFailed<T>) -> Failure<P, R> {
        Failure::NoMemory
    }
}
