//! Why an item is not taken in.

ghost use Rattle.std.specs.Prelude.{◌≡◌};

use courier_messages::SessionFault;
use std::alloc::AllocError;
use thiserror::Error;

/// Why an item is not taken in.
///
/// `Attention` and `Fault` stop the conversation: each further item and call is refused as `Stopped`. After all other
/// refusals the side is as it was.
#[derive(Clone, Copy, Debug, PartialEq, Eq, Error)]
pub enum FeedRefusal {
    /// The conversation has stopped before.
    #[error("the conversation has stopped")]
    Stopped,
    /// A call waits for its answer, or what is out was not picked up. Only the side that is called refuses an item for
    /// this reason. The item can be fed later.
    #[error("a call waits for its answer, or what is out was not picked up")]
    Busy,
    /// The item has over 131,076 bytes, which the versions and the longest message have.
    #[error("the item has more bytes than a message")]
    TooLong,
    /// The item is an attention item, of which Courier has none.
    #[error("an attention item is no part of a message")]
    Attention,
    /// The first thing that is wrong with the peer's text. It is never [`SessionFault::NoMemory`] nor [`SessionFault::Failed`].
    #[error(transparent)]
    Fault(SessionFault),
    /// A growth was refused. The item can be fed again.
    #[error("no memory")]
    NoMemory,
}

impl From<AllocError> for FeedRefusal {
    ghost use Rattle.courier_sessions.specs.declared.feed_refusal.FeedRefusal.TheVariants.{NoMemory};

    ghost from_gives = { λ _ e. e ≡ NoMemory };

    fn from(_e: AllocError) -> FeedRefusal {
        FeedRefusal::NoMemory
    }
}
