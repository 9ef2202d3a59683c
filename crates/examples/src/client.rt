//! A caller at an endpoint: the pump moves the items between them.

use crate::hosts::{CALLER, SERVER};
use courier_sessions::{CallRefusal, FeedRefusal, WordCaller, pump};
use std::alloc::{AllocError, Global};
use xns_spp::{Bytes, Endpoint};

/// The side that calls, and the end of its connection.
#[derive(Drop)]
pub struct Client {
    pub caller: WordCaller,
    pub endpoint: Endpoint,
}

impl Client {
    /// A client of the server. Its first packet opens the connection.
    pub fn new(alloc: Global) -> Result<Client, AllocError> {
        let caller = WordCaller::new(alloc)?;
        let endpoint = Endpoint::initiator(alloc, CALLER, 0x1234, SERVER, 4, 16)?;
        Ok(Client { caller, endpoint })
    }

    /// Makes a call: program 7, version 2, procedure 1.
    pub fn ask(&mut self, alloc: Global, words: &[u16]) -> Result<(), CallRefusal> {
        self.caller.call(alloc, 7, 2, 1, words)
    }

    /// The packets that are to go out, with those again that are not acknowledged.
    pub fn packets(&mut self, alloc: Global) -> Result<Vec<Bytes>, FeedRefusal> {
        pump(&mut self.caller, alloc, &mut self.endpoint)?;
        Ok(self.endpoint.tick(alloc)?)
    }

    /// Takes in a packet. The server learns by the next packet that it came.
    pub fn receive(&mut self, alloc: Global, packet: &[u8]) -> Result<(), FeedRefusal> {
        let _ = self.endpoint.receive(alloc, packet)?;
        pump(&mut self.caller, alloc, &mut self.endpoint)
    }
}
