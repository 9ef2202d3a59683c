use crate::outcome::{Outcome, done, refused};
use crate::{courier, internet, sequenced};
use std::alloc::{AllocError, Global};

/// The values that are made from nothing that takes memory itself.
#[derive(Clone, Copy)]
pub enum Made {
    EchoReply,
    Complaint,
    Request,
    Initiator,
    Responder,
    Table,
}

impl Made {
    /// Makes a value of this kind, and returns whether it is right.
    fn is_right(self, alloc: Global) -> Result<bool, AllocError> {
        match self {
            Made::EchoReply => internet::answers(alloc),
            Made::Complaint => internet::complains(alloc),
            Made::Request => internet::requests(alloc),
            Made::Initiator => sequenced::begins(alloc),
            Made::Responder => sequenced::responds(alloc),
            Made::Table => courier::makes_a_table(alloc),
        }
    }

    /// The outcome of making a value of this kind.
    pub fn outcome(self, alloc: Global) -> Result<Outcome, AllocError> {
        if let Ok(right) = self.is_right(alloc) {
            return Ok(done(right));
        }
        Ok(refused(true, self.is_right(alloc)?))
    }
}
