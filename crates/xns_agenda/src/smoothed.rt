//! How long a peer takes to acknowledge, smoothed over the times that were measured.

ghost use Rattle.std.specs.Prelude.{◌≡◌};
ghost use Rattle.xns_agenda.specs.Measuring.{IsWithinLongest, estimate, first_smoothed, smoothed_on, soonest};

/// How long a peer takes to acknowledge: the times that were measured, smoothed, in milliseconds.
#[derive(Clone, Copy, Debug, PartialEq, Eq)]
pub struct Smoothed {
    /// Eight times the smoothed time.
    pub time8: u64,
    /// Four times the amount by which the time varies.
    pub varies4: u64,
}

impl Smoothed {
    /// The smoothed time after the first time that is measured.
    pub fn first(time: u32) -> Smoothed
        ensures value { result ≡ first_smoothed time }
        ensures bounded { IsWithinLongest result }
    {
        let time = u64::from(time);
        Smoothed {
            time8: 8 * time,
            varies4: 2 * time,
        }
    }

    /// The smoothed time after one more time that is measured.
    pub fn then(self, time: u32) -> Smoothed
        requires { IsWithinLongest self }
        ensures value { result ≡ smoothed_on self time }
        ensures bounded { IsWithinLongest result }
    {
        let time = u64::from(time);
        Smoothed {
            time8: self.time8 - self.time8 / 8 + time,
            varies4: self.varies4 - self.varies4 / 4 + time.abs_diff(self.time8 / 8),
        }
    }

    /// The time that is to be expected: the smoothed time, and four times the amount by which it varies, which counts
    /// at least `least`.
    pub fn estimate(self, least: u32) -> u64
        requires { IsWithinLongest self }
        ensures { result ≡ estimate self least }
    {
        self.time8 / 8 + self.varies4.max(u64::from(least))
    }

    /// The soonest time that is to be expected: half of the smoothed time, less four times the amount by which it
    /// varies, which counts at least `least`.
    pub fn soonest(self, least: u32) -> u64
        requires { IsWithinLongest self }
        ensures { result ≡ soonest self least }
    {
        let time = self.time8 / 8;
        (time - time / 2).saturating_sub(self.varies4.max(u64::from(least)))
    }
}
