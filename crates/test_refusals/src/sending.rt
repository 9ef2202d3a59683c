use crate::outcome::{Outcome, done, refused};
use crate::sequenced::sender;
use std::alloc::{AllocError, Global};
use xns_spp::Endpoint;

/// How an end that has an item to send gives a packet.
#[derive(Clone, Copy)]
pub enum Sending {
    /// The item goes out at a tick.
    Tick,
    /// The item goes out once.
    Flush,
    /// The first item goes out, and then not again as new.
    First,
    /// The end tells what it has room for.
    System,
}

impl Sending {
    /// How many packets the end gives.
    fn packets(self, alloc: Global, end: &mut Endpoint) -> Result<usize, AllocError> {
        match self {
            Sending::Tick => Ok(end.tick(alloc)?.len()),
            Sending::Flush => Ok(end.flush(alloc)?.len()),
            Sending::First => Ok(usize::from(end.resend_first(alloc)?.is_some())),
            Sending::System => Ok(usize::from(end.system_packet(alloc, true)?.is_some())),
        }
    }

    /// Whether the end, which was refused memory first, stands as one that was not.
    fn stands(self, alloc: Global, end: &mut Endpoint) -> Result<bool, AllocError> {
        match self {
            Sending::Tick | Sending::System => Ok(end.is_open()),
            Sending::Flush | Sending::First => Ok(end.flush(alloc)?.is_empty()),
        }
    }

    /// The outcome of sending at this end.
    fn outcome_at(self, alloc: Global, end: &mut Endpoint) -> Result<Outcome, AllocError> {
        if let Ok(packets) = self.packets(alloc, end) {
            return Ok(done(packets == 1));
        }
        let packets = self.packets(alloc, end)?;
        Ok(refused(self.stands(alloc, end)?, packets == 1))
    }

    /// The outcome of sending at a server that may send one item, and has one to send.
    pub fn outcome(self, alloc: Global) -> Result<Outcome, AllocError> {
        self.outcome_at(alloc, &mut sender(alloc)?)
    }
}
