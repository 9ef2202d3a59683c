use crate::speed::WORDS;
use crate::speed::pair::CLIENT;
use courier_sessions::{Answer, WordCaller, WordServer, WordSide, pump};
use host_scenes::player::SERVER;
use host_scenes::station::LISTED;
use std::alloc::{AllocError, Global};
use xns_spp::Endpoint;

/// The end that calls: an endpoint and a session.
#[derive(Drop)]
struct Calling {
    side: WordCaller,
    endpoint: Endpoint,
}

/// The end that is called.
#[derive(Drop)]
struct Answering {
    side: WordServer,
    endpoint: Endpoint,
}

/// Two ends, one of which calls the other.
#[derive(Drop)]
pub struct ByHand {
    alloc: Global,
    calling: Calling,
    answering: Answering,
    answered: u32,
}

impl Calling {
    fn new(alloc: Global) -> Result<Calling, AllocError> {
        let side = WordCaller::new(alloc)?;
        let endpoint = Endpoint::initiator(alloc, CLIENT, 9, SERVER, 8, 16)?;
        Ok(Calling { side, endpoint })
    }
}

/// The session of the end that is called.
fn server(alloc: Global) -> Result<WordServer, AllocError> {
    let programs = Vec::from_slice(alloc, &[LISTED])?;
    WordServer::new(alloc, programs)
}

impl Answering {
    fn new(alloc: Global) -> Result<Answering, AllocError> {
        let side = server(alloc)?;
        let endpoint = Endpoint::responder(alloc, SERVER, 7, CLIENT, 9, 8, 16)?;
        Ok(Answering { side, endpoint })
    }
}

/// Moves the items of one end, and carries its packets to the other, whose replies come back.
fn carry<S: WordSide>(
    alloc: Global,
    side: &mut S,
    from: &mut Endpoint,
    to: &mut Endpoint,
) -> Result<(), AllocError> {
    let _ = pump(side, alloc, from);
    for packet in &from.flush(alloc)? {
        if let Some(reply) = to.receive(alloc, packet.as_slice())?.reply {
            from.receive(alloc, reply.as_slice())?;
        }
    }
    Ok(())
}

impl ByHand {
    pub fn new(alloc: Global) -> Result<ByHand, AllocError> {
        Ok(ByHand {
            alloc,
            calling: Calling::new(alloc)?,
            answering: Answering::new(alloc)?,
            answered: 0,
        })
    }

    /// Opens the connection.
    fn open(&mut self) -> Result<(), AllocError> {
        for packet in &self.calling.endpoint.tick(self.alloc)? {
            let received = self
                .answering
                .endpoint
                .receive(self.alloc, packet.as_slice())?;
            if let Some(reply) = received.reply {
                self.calling.endpoint.receive(self.alloc, reply.as_slice())?;
            }
        }
        Ok(())
    }

    /// Carries the items that the caller has out.
    fn ask(&mut self) -> Result<(), AllocError> {
        carry(
            self.alloc,
            &mut self.calling.side,
            &mut self.calling.endpoint,
            &mut self.answering.endpoint,
        )
    }

    /// Carries the items that the server has out.
    fn reply(&mut self) -> Result<(), AllocError> {
        carry(
            self.alloc,
            &mut self.answering.side,
            &mut self.answering.endpoint,
            &mut self.calling.endpoint,
        )
    }

    /// Answers the call that came by its own words.
    fn answer(&mut self) -> Result<(), AllocError> {
        self.reply()?;
        if let Some(message) = self.answering.side.take_call() {
            let words = message.words(self.alloc)?;
            let _ = self
                .answering
                .side
                .answer(self.alloc, Answer::Return, words.as_slice());
            self.reply()?;
        }
        Ok(())
    }

    /// Picks the answer up.
    fn hear(&mut self) -> Result<(), AllocError> {
        self.ask()?;
        if let Some(message) = self.calling.side.take_outcome() {
            let words = message.words(self.alloc)?;
            if words.as_slice() == WORDS.as_slice() {
                self.answered = self.answered.saturating_add(1);
            }
        }
        Ok(())
    }

    /// Makes a call, which is answered.
    fn call(&mut self) -> Result<(), AllocError> {
        let _ = self.calling.side.call(self.alloc, 7, 2, 1, &WORDS);
        self.ask()?;
        self.answer()?;
        self.hear()
    }

    /// Opens the connection, makes so many calls, and returns how many were answered.
    pub fn call_all(&mut self, calls: u32) -> Result<u32, AllocError> {
        self.open()?;
        for _ in 0..calls {
            self.call()?;
        }
        Ok(self.answered)
    }
}
