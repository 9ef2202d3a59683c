use crate::speed::WORDS;
use host_scenes::player::SERVER;
use host_scenes::station::{LISTED, NETWORK, Station, both};
use std::alloc::Global;
use xns_host::{Event, HostFault, Settings};
use xns_idp::Address;

/// Where the client is.
pub const CLIENT: Address = Address {
    network: NETWORK,
    host: [0, 0, 170, 0, 2, 2],
    socket: 3_000,
};

/// Two hosts, one of which calls the other.
#[derive(Drop)]
pub struct Pair {
    alloc: Global,
    client: Station,
    service: Station,
    now: u64,
    answered: u32,
}

/// Carries the packets of one host to the other.
fn carry(now: u64, from: &mut Station, to: &mut Station) -> Result<(), HostFault> {
    for _ in 0..40 {
        let Some(out) = from.next_packet(now)? else {
            break;
        };
        to.receive(now, out.via, out.packet.as_slice());
    }
    Ok(())
}

/// A host with this number of its own.
fn host_at(alloc: Global, host: [u8; 6], connections: usize) -> Result<Station, HostFault> {
    let settings = Settings {
        connections,
        idle: 0,
        ..Settings::default()
    };
    Station::new(alloc, host, settings, [1; 32])
}

impl Pair {
    /// Two hosts with room for so many connections.
    pub fn new(alloc: Global, connections: usize) -> Result<Pair, HostFault> {
        let client = host_at(alloc, CLIENT.host, connections)?;
        let (client, service) = both(client, host_at(alloc, SERVER.host, connections))?;
        Ok(Pair {
            alloc,
            client,
            service,
            now: 0,
            answered: 0,
        })
    }

    /// Answers a call by its own words.
    fn answer(&mut self) -> Result<(), HostFault> {
        match self.service.next_event() {
            Some(event) => self.answer_to(&event),
            None => Ok(()),
        }
    }

    fn answer_to(&mut self, event: &Event) -> Result<(), HostFault> {
        let Event::Call {
            number,
            message,
            ..
        } = event
        else {
            return Ok(());
        };
        let Ok(words) = message.words(self.alloc) else {
            return Err(HostFault::NoMemory);
        };
        self.service.answer(self.now, *number, words.as_slice())
    }

    /// Picks an answer up.
    fn hear(&mut self) -> Result<(), HostFault> {
        match self.client.next_event() {
            Some(event) => self.take(&event),
            None => Ok(()),
        }
    }

    fn take(&mut self, event: &Event) -> Result<(), HostFault> {
        let Event::Answer { message, .. } = event else {
            return Ok(());
        };
        let Ok(words) = message.words(self.alloc) else {
            return Err(HostFault::NoMemory);
        };
        if words.as_slice() == WORDS.as_slice() {
            self.answered = self.answered.saturating_add(1);
        }
        Ok(())
    }

    /// Lets both hosts do what they can.
    fn talk(&mut self) -> Result<(), HostFault> {
        carry(self.now, &mut self.client, &mut self.service)?;
        self.answer()?;
        carry(self.now, &mut self.service, &mut self.client)?;
        self.hear()?;
        Ok(())
    }

    /// Makes a call, which is answered.
    fn call(&mut self, number: usize) -> Result<(), HostFault> {
        self.now = self.now.saturating_add(1);
        self.client.call(self.now, number, 7, &WORDS)?;
        self.talk()
    }

    /// Opens a connection by a call, and returns its number.
    fn open(&mut self) -> Result<usize, HostFault> {
        let number = self.client.connect(self.now, CLIENT.socket, SERVER)?;
        self.call(number)?;
        self.talk()?;
        self.talk()?;
        Ok(number)
    }

    /// Serves the program, opens so many connections, and returns the number of the last one.
    fn open_all(&mut self, connections: u32) -> Result<usize, HostFault> {
        self.service.serve(SERVER.socket, &[LISTED])?;
        let mut last = 0;
        for _ in 0..connections {
            last = self.open()?;
        }
        Ok(last)
    }

    /// Opens so many connections, makes so many calls on the last one, and returns how many of these were answered.
    pub fn call_all(&mut self, connections: u32, calls: u32) -> Result<u32, HostFault> {
        let last = self.open_all(connections)?;
        self.answered = 0;
        for _ in 0..calls {
            self.call(last)?;
        }
        Ok(self.answered)
    }
}
