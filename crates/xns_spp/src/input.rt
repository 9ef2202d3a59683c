//! The result of taking in a packet without making a reply.

ghost use Rattle.std.specs.Prelude.{◌≡◌, Some, false};

use crate::dropped::Dropped;

/// The result of taking in a packet without making a reply.
#[derive(Clone, Copy, Debug, PartialEq, Eq)]
pub struct Input {
    /// How many items were taken: the packet's, with the early ones that follow it, or none.
    pub took: usize,
    /// Whether a reply is owed to the peer: `receive` would have made one.
    pub owes_reply: bool,
    /// Why the packet's item was neither taken nor kept; `None` where it was, or where the packet brings none.
    pub dropped: Option<Dropped>,
}

impl Input {
    /// The result for a packet that is not looked at.
    #[inline(always)]
    pub(crate) fn of_dropped(reason: Dropped) -> Input
        ensures { result ≡ record { took = 0; owes_reply = false; dropped = Some reason } }
    {
        Input {
            took: 0,
            owes_reply: false,
            dropped: Some(reason),
        }
    }
}
