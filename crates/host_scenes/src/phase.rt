/// A time in which the network of a play is another one, in milliseconds.
#[derive(Clone, Copy)]
pub struct Phase {
    pub from: u64,
    pub until: u64,
    /// How long a packet takes at least in the phase. `None`: each packet is lost.
    pub distance: Option<u64>,
}

impl Phase {
    /// A phase that never comes.
    pub const NEVER: Phase = Phase {
        from: 0,
        until: 0,
        distance: None,
    };

    /// How long a packet that is sent at this time takes at least: `usual` outside the phase. `None`: the packet is
    /// lost.
    pub fn distance(self, now: u64, usual: u64) -> Option<u64> {
        if self.from <= now && now < self.until {
            self.distance
        } else {
            Some(usual)
        }
    }
}
