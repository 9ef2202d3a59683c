//! Why a description is not read, or its program not printed.
ghost use Rattle.std.specs.Prelude.{◌≡◌};
ghost use Rattle.xns_lines.specs.declared.fault.RunFault.TheVariants.{NoMemory};
ghost use Rattle.xns_command.specs.declared.description_fault.DescriptionFault.TheVariants.{Run as Ran};

use courier_programs::ProgramReason;
use std::alloc::{AllocError, AllocFailed};
use thiserror::Error;
use xns_lines::RunFault;

/// Why a description of a program is not read, or its program not printed.
#[derive(Clone, Copy, Debug, PartialEq, Eq, Error)]
pub enum DescriptionFault {
    /// The first fault of the text: its line and its column, and what is wrong. Both count from 1, and a column is a byte.
    #[error("{line}:{column} {reason}")]
    Wrong {
        line: usize,
        column: usize,
        reason: ProgramReason,
    },
    /// Reading, writing or memory failed.
    #[error(transparent)]
    Run(RunFault),
}

impl From<AllocError> for DescriptionFault {
    ghost from_gives = { λ _ e. e ≡ Ran NoMemory };

    fn from(_e: AllocError) -> DescriptionFault {
        DescriptionFault::Run(RunFault::NoMemory)
    }
}

impl<T: Drop> From<AllocFailed<T>> for DescriptionFault {
    ghost from_gives = { λ _ e. e ≡ Ran NoMemory };

    fn from(_e: AllocFailed<T>) -> DescriptionFault {
        DescriptionFault::Run(RunFault::NoMemory)
    }
}
