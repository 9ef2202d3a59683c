//! A server at an endpoint: the pump moves the items between them.

use crate::hosts::{CALLER, SERVER};
use courier_sessions::{Answer, FeedRefusal, Program, WordServer, pump};
use std::alloc::{AllocError, Global};
use xns_spp::{Bytes, Endpoint};

/// The side that is called, and the end of its connection.
#[derive(Drop)]
pub struct Service {
    pub server: WordServer,
    pub endpoint: Endpoint,
}

impl Service {
    /// A service of the client's, for these programs.
    pub fn new(alloc: Global, programs: Vec<Program>) -> Result<Service, AllocError> {
        let server = WordServer::new(alloc, programs)?;
        let endpoint = Endpoint::responder(alloc, SERVER, 0x5678, CALLER, 0x1234, 4, 16)?;
        Ok(Service { server, endpoint })
    }

    /// Answers the call that came, by its own words, and returns the packets that are to go out.
    pub fn packets(&mut self, alloc: Global) -> Result<Vec<Bytes>, FeedRefusal> {
        pump(&mut self.server, alloc, &mut self.endpoint)?;
        let _ = self.server.reject_unlisted(alloc)?;
        if let Some(call) = self.server.take_call() {
            let words = call.words(alloc)?;
            let _ = self.server.answer(alloc, Answer::Return, words.as_slice());
        }
        pump(&mut self.server, alloc, &mut self.endpoint)?;
        Ok(self.endpoint.flush(alloc)?)
    }

    /// Takes in a packet, and returns the reply.
    pub fn receive(&mut self, alloc: Global, packet: &[u8]) -> Result<Option<Bytes>, FeedRefusal> {
        Ok(self.endpoint.receive(alloc, packet)?.reply)
    }
}
