//! Why a message or a session stops.
ghost use Rattle.std.specs.Prelude.{◌≡◌};

use std::alloc::AllocError;
use thiserror::Error;

/// What is wrong with a message's bytes.
#[derive(Clone, Copy, Debug, PartialEq, Eq, Error)]
pub enum MessageFault {
    /// The number of bytes is odd.
    #[error("the message has an odd number of bytes")]
    OddLength,
    /// The words are fewer than two, or fewer than the kind needs.
    #[error("the message is shorter than its head")]
    ShortMessage,
    /// The first word, `found`, is none of 0 for a call, 1 for a reject, 2 for a return and 3 for an abort.
    #[error("the message is of kind {found}, and there are the kinds 0 to 3")]
    UnknownKind { found: u16 },
    /// The message has more than 131,072 bytes.
    #[error("the message has more than 131072 bytes")]
    TooLong,
}

/// Why a message was not read.
#[derive(Clone, Copy, Debug, PartialEq, Eq, Error)]
pub enum MessageRefusal {
    /// The bytes are no message.
    #[error(transparent)]
    Fault(MessageFault),
    /// Memory was refused.
    #[error("no memory")]
    NoMemory,
}

/// Why a session stopped.
#[derive(Clone, Copy, Debug, PartialEq, Eq, Error)]
pub enum SessionFault {
    /// The peer's range of versions is without 3.
    #[error("the peer does not speak version 3")]
    NoCommonVersion,
    /// The peer's lowest version is over its highest, or a mark stands before the range's fourth byte.
    #[error("the peer's first bytes are no range of versions")]
    BadVersions,
    /// A message cannot be read.
    #[error(transparent)]
    BadMessage(MessageFault),
    /// An answer came where no call waits, or with another transaction than that of the call that waits.
    #[error("the peer answers no call that waits")]
    WrongTransaction,
    /// A server was sent an answer, or a caller a call, or results or an error that do not fit its call in the table.
    #[error("the peer's message is not one that fits here")]
    BadReply,
    /// An item of the datastream `kind`, which is not 0, came.
    #[error("an item is of datastream {kind}, and calls are of datastream 0")]
    Stream { kind: u8 },
    /// Memory was refused.
    #[error("no memory")]
    NoMemory,
    /// The session had stopped before.
    #[error("the session has stopped")]
    Failed,
}

impl From<AllocError> for SessionFault {
    ghost use Rattle.courier_messages.specs.declared.fault.SessionFault.TheVariants.{NoMemory};

    ghost from_gives = { λ _ e. e ≡ NoMemory };

    fn from(_e: AllocError) -> SessionFault {
        SessionFault::NoMemory
    }
}
