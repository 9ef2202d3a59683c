//! How long a wait is, by the times that were measured.

ghost use Rattle.std.specs.Prelude.{◌≡◌, ◌≤◌, ◌+◌, ◌-◌, Some, None, IfSome};
ghost use Rattle.xns_agenda.specs.Measuring.{IsWithinLongest, ambiguously, borne, doubted, doubted_wait, expected_time, expected_from, first_wait, is_expected, is_fit, learnt, mends, most_borne, sampled, smoothed_by};

use crate::pace::Pace;
use crate::progress::Progress;
use crate::smoothed::Smoothed;
use crate::timing::Timing;

/// How long a peer takes to acknowledge, as far as it is known.
#[derive(Clone, Copy, Debug, PartialEq, Eq)]
pub struct Measure {
    /// The times that were measured, smoothed. `None`: no time was measured.
    pub smoothed: Option<Smoothed>,
    /// How often something went out again, perhaps too early, since a time was measured.
    pub doubts: u8,
    /// How many acknowledgements of all that was out were ambiguous since a time was measured: each may be of the packet that went out
    /// first, or of the one that went out again. At the eighth the count begins anew, and is a doubt.
    pub ambiguous: u8,
}

/// How long a wait is at least, by the number of doubts.
fn doubted_wait(first: u32, doubts: u8) -> u64
    ensures { result ≡ doubted_wait first doubts }
{
    let first = u64::from(first);
    if doubts < 3 {
        0
    } else if doubts == 3 {
        first
    } else if doubts == 4 {
        first * 2
    } else {
        first * 4
    }
}

impl Measure {
    /// The measure of a peer of which nothing is known.
    pub const NONE: Measure = Measure {
        smoothed: None,
        doubts: 0,
        ambiguous: 0,
    };

    /// How many ambiguous acknowledgements are a doubt.
    const MOST_AMBIGUOUS: u8 = 8;

    /// How many packets are borne at most: as many as 16 bits count.
    pub const MOST_BORNE: u16 = u16::MAX;

    /// The first wait for an acknowledgement.
    pub fn first_wait(self, pace: &Pace) -> u32
        requires { IfSome self.smoothed IsWithinLongest }
        ensures value { result ≡ first_wait self pace.now }
        ensures least { pace.now.least ≤ result }
        ensures most { result ≤ pace.now.longest }
    {
        let Some(smoothed) = self.smoothed else {
            return pace.first;
        };
        let wait = smoothed
            .estimate(pace.least)
            .max(doubted_wait(pace.first, self.doubts));
        let most = (u64::from(pace.first) * 4).min(u64::from(pace.longest));
        wait.min(most) as u32
    }

    /// How many packets without a word of the peer are borne.
    pub fn borne(self, pace: &Pace) -> u16
        requires { IfSome self.smoothed IsWithinLongest }
        ensures value { result ≡ borne self pace.now }
        ensures most { result ≤ most_borne }
    {
        let waits = pace.further_waits(self.first_wait(pace), pace.patience);
        let patient = waits.min(u32::from(Measure::MOST_BORNE)) as u16;
        patient.max(u16::from(pace.tries))
    }

    /// The measure after one more time that was measured.
    fn sampled(self, pace: &Pace, passed: u64) -> Measure
        requires { IfSome self.smoothed IsWithinLongest }
        ensures value { result ≡ sampled self pace.now passed }
        ensures bounded { IfSome result.smoothed IsWithinLongest }
    {
        let time = passed.min(u64::from(pace.longest)) as u32;
        let smoothed = match self.smoothed {
            None => Smoothed::first(time),
            Some(smoothed) => smoothed.then(time),
        };
        Measure {
            smoothed: Some(smoothed),
            doubts: 0,
            ambiguous: 0,
        }
    }

    /// Whether a packet that went out again so long ago may be the one that the peer acknowledged.
    fn is_expected(self, pace: &Pace, passed: u64) -> bool
        requires { IfSome self.smoothed IsWithinLongest }
        ensures { result ≡ is_expected self.smoothed pace.now passed }
    {
        let (soonest, most) = match self.smoothed {
            None => (
                u64::from(pace.least - pace.least / 2),
                u64::from(pace.first),
            ),
            Some(smoothed) => (smoothed.soonest(pace.least), smoothed.estimate(pace.least)),
        };
        soonest <= passed && passed <= most
    }

    /// Whether a packet that went out again so long ago counts as the one that the peer acknowledged, and no item that was out before.
    fn is_fit(self, pace: &Pace, passed: u64) -> bool
        ensures { result ≡ is_fit self.smoothed pace.now passed }
    {
        let time = match self.smoothed {
            None => u64::from(pace.least),
            Some(smoothed) => smoothed.time8 / 8,
        };
        time - time / 2 <= passed
    }

    /// Whether the first item that is not acknowledged goes out again where the peer acknowledges so many items: something had gone out
    /// again, which the peer may have acknowledged, and the peer has not acknowledged all that was out then, as far as that is kept.
    pub fn mends(self, pace: &Pace, timing: Timing, acknowledged: u64, now: u64) -> bool
        ensures { result ≡ mends self pace.now timing acknowledged now }
    {
        match timing {
            Timing::Resent(at, missing) => acknowledged < missing
                && self.is_fit(pace, now.saturating_sub(at)),
            Timing::Ready | Timing::Timed(_, _) | Timing::Over(_) => false,
        }
    }

    /// The measure after one more ambiguous acknowledgement.
    fn ambiguously(self) -> Measure
        ensures { result ≡ ambiguously self }
    {
        if self.ambiguous < Measure::MOST_AMBIGUOUS - 1 {
            return Measure {
                ambiguous: self.ambiguous + 1,
                ..self
            };
        }
        Measure {
            doubts: self.doubts.max(2).saturating_add(1),
            ambiguous: 0,
            ..self
        }
    }

    /// The measure after the peer acknowledged a packet that had gone out again so long ago, or one that had gone out before. `left` says
    /// whether something is still not acknowledged.
    fn doubted(self, pace: &Pace, left: bool, passed: u64) -> Measure
        requires { IfSome self.smoothed IsWithinLongest }
        ensures value { result ≡ doubted self pace.now left passed }
        ensures bounded { IfSome result.smoothed IsWithinLongest }
    {
        if !self.is_expected(pace, passed) {
            return Measure {
                doubts: self.doubts.saturating_add(1),
                ..self
            };
        }
        if left { self } else { self.ambiguously() }
    }

    /// The measure once the peer acknowledges more, or opens the connection.
    pub fn learnt(self, pace: &Pace, timing: Timing, progress: Progress, now: u64) -> Measure
        requires { IfSome self.smoothed IsWithinLongest }
        ensures value { result ≡ learnt self pace.now timing progress now }
        ensures bounded { IfSome result.smoothed IsWithinLongest }
    {
        match timing {
            Timing::Timed(since, place) if place <= progress.acknowledged => self.sampled(
                pace,
                now.saturating_sub(since),
            ),
            Timing::Resent(at, _) => self.doubted(pace, progress.out > 0, now.saturating_sub(at)),
            Timing::Ready | Timing::Timed(_, _) | Timing::Over(_) => self,
        }
    }
}
