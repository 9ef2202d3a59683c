ghost use Rattle.xns_spp.specs.Ends.{IsCapacity};

use xns_agenda::Pace;

/// What a connection is made with.
#[derive(Clone, Copy)]
pub struct Terms {
    /// How many items a connection keeps until they are handed up: 1 to 64.
    pub window: usize,
    /// How many items a connection keeps until they are acknowledged: 1 to 64.
    pub backlog: usize,
    /// How long a connection waits.
    pub pace: Pace,
    ghost window_fits: { IsCapacity window },
    ghost backlog_fits: { IsCapacity backlog },
}
