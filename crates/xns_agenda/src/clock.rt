//! A clock whose own time never goes back, whatever the clocks do that tell it the time.

ghost use Rattle.std.specs.Prelude.{◌≡◌, ◌+◌, ◌-◌, min};
ghost use Rattle.xns_agenda.specs.Waiting.{last_time};

/// A clock whose own time, in milliseconds, is the sum of the steps forward of the clocks that told it the time.
#[derive(Clone, Copy, Debug)]
pub struct Clock {
    /// The time that was told last.
    told: u64,
    /// The own time at that moment.
    latest: u64,
}

/// How far the own time goes on in one step at most.
const DAY: u64 = 86_400_000;

impl Clock {
    ghost use Rattle.xns_agenda.specs.Clock.{by_told, time_at, told_at, when_told};

    /// A clock that was told no time yet: the time told last counts as 0, and the own time is 0.
    pub fn new() -> Clock
        ensures told { result.told ≡ 0 }
        ensures latest { result.latest ≡ 0 }
    {
        Clock { told: 0, latest: 0 }
    }

    /// Tells the clock a time, and returns the own time then. A step back counts as none, and one of more than a day as a day.
    pub fn tell(&mut self, time: u64) -> u64
        ensures result { result ≡ time_at self.old time }
        ensures told { self.new ≡ told_at self.old time }
    {
        let step = time.saturating_sub(self.told).min(DAY);
        self.told = time;
        self.latest = self.latest.saturating_add(step);
        self.latest
    }

    /// The own time, as it was when a time was told last.
    pub fn latest(self) -> u64
        ensures { result ≡ self.latest }
    {
        self.latest
    }

    /// The time as long before or after the one told last as `time` is before or after the own time then.
    fn shifted(self, time: u64) -> u64
        ensures { result ≡ min ((self.told + time) - self.latest) last_time }
    {
        if time < self.latest {
            self.told.saturating_sub(self.latest - time)
        } else {
            self.told.saturating_add(time - self.latest)
        }
    }

    /// An own time, by the clock that told the time last.
    fn by_told(self, time: u64) -> u64
        ensures { result ≡ by_told self time }
    {
        if time == 0 {
            return 0;
        }
        let at = self.shifted(time);
        if at < u64::MAX { at } else { 0 }
    }

    /// An own time, by the clock that told the time last: as long before or after the time told. 0 stays 0, which means at once by either,
    /// and a time past the end of that clock is at once. A `None` is never.
    pub fn when_told(self, time: Option<u64>) -> Option<u64>
        ensures { result ≡ when_told self time }
    {
        Some(self.by_told(time?))
    }
}
