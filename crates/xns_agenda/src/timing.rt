//! The item that is timed while something waits for the peer.

ghost use Rattle.std.specs.Prelude.{◌≡◌};
ghost use Rattle.xns_agenda.specs.Measuring.{begun_timing, every, is_late, is_vain, moved_on};

use crate::progress::Progress;

/// The item that is timed while something waits for the peer, if one is. Times are in milliseconds.
#[derive(Clone, Copy, Debug, PartialEq, Eq)]
pub enum Timing {
    /// Nothing waits for the peer: the next item that goes out is timed.
    Ready,
    /// An item waits for the peer since this time, and nothing went out again since. The second number is its place among the items that
    /// are out, from 1 on.
    Timed(u64, u64),
    /// Something went out again, at this time last, and the peer acknowledged nothing since. The second number says how many of the items
    /// that were out then are not acknowledged.
    Resent(u64, u64),
    /// Something waits for the peer, and nothing is timed. So many items are out; the next that goes out behind them is timed.
    Over(u64),
}

impl Timing {
    /// A number of items that is not kept, and stands for more than any.
    pub const EVERY: u64 = u64::MAX;

    /// The timing once something waits for the peer, and so many items are out.
    pub fn begun(self, out: u64, now: u64) -> Timing
        ensures { result ≡ begun_timing self out now }
    {
        match self {
            Timing::Ready => Timing::Timed(now, 1),
            Timing::Over(before) if before < out => Timing::Timed(now, before + 1),
            Timing::Timed(_, _) | Timing::Resent(_, _) | Timing::Over(_) => self,
        }
    }

    /// Whether something went out again since the peer acknowledged more.
    pub fn is_vain(self) -> bool
        ensures { result ≡ is_vain self }
    {
        matches!(self, Timing::Resent(_, _))
    }

    /// Whether half of a wait is over since the item that is timed went out, and nothing went out again.
    pub fn is_late(self, wait: u32, now: u64) -> bool
        ensures { result ≡ is_late self wait now }
    {
        match self {
            Timing::Timed(since, _) => u64::from(wait - wait / 2) <= now.saturating_sub(since),
            Timing::Ready | Timing::Resent(_, _) | Timing::Over(_) => false,
        }
    }

    /// The timing after the peer acknowledged more, where `again` says whether something goes out again for that.
    pub fn moved_on(self, progress: Progress, again: bool, now: u64) -> Timing
        ensures { result ≡ moved_on self progress again now }
    {
        if again {
            return Timing::Resent(now, progress.out);
        }
        match self {
            Timing::Timed(since, place) if progress.acknowledged < place => Timing::Timed(
                since,
                place - progress.acknowledged,
            ),
            _ => Timing::Over(progress.out),
        }
    }
}
