use courier_sessions::{Answer, Program};
use std::alloc::Global;
use xns_host::{Call, Event, Host, HostFault, Outgoing, Settings};
use xns_idp::Address;

/// The network that all plays are on.
pub const NETWORK: u32 = 1;

/// The program that servers serve.
pub const LISTED: Program = Program {
    number: 7,
    lowest: 2,
    highest: 2,
};

/// A host that is played. Its functions are those of the host as the plays use them, and promise nothing: a play shows what comes of them,
/// and no proof of a play reads what the host promises.
#[derive(Drop)]
pub struct Station {
    host: Host,
}

impl Station {
    /// A host of the network that all plays are on.
    pub fn new(
        alloc: Global,
        host: [u8; 6],
        settings: Settings,
        secret: [u8; 32],
    ) -> Result<Station, HostFault> {
        let host = Host::new(alloc, NETWORK, host, settings, secret)?;
        Ok(Station { host })
    }

    pub fn serve(&mut self, socket: u16, programs: &[Program]) -> Result<(), HostFault> {
        self.host.serve(socket, programs)
    }

    /// Opens a connection by the only way that there is.
    pub fn connect(&mut self, now: u64, socket: u16, peer: Address) -> Result<usize, HostFault> {
        self.host.connect(now, 0, socket, peer)
    }

    /// Calls procedure 1 of version 2 of the program.
    pub fn call(
        &mut self,
        now: u64,
        number: usize,
        program: u32,
        words: &[u16],
    ) -> Result<(), HostFault> {
        let call = Call {
            program,
            version: 2,
            procedure: 1,
            words,
        };
        self.host.call(now, number, &call)
    }

    /// Answers a call by a return.
    pub fn answer(&mut self, now: u64, number: usize, words: &[u16]) -> Result<(), HostFault> {
        self.host.answer(now, number, Answer::Return, words)
    }

    pub fn close(&mut self, now: u64, number: usize) -> Result<(), HostFault> {
        self.host.close(now, number)
    }

    pub fn abandon(&mut self, number: usize) -> Result<(), HostFault> {
        self.host.abandon(number)
    }

    pub fn receive(&mut self, now: u64, via: u64, bytes: &[u8]) -> bool {
        self.host.receive(now, via, bytes)
    }

    pub fn next_event(&mut self) -> Option<Event> {
        self.host.next_event()
    }

    pub fn next_packet(&mut self, now: u64) -> Result<Option<Outgoing>, HostFault> {
        self.host.next_packet(now)
    }

    pub fn wake(&self) -> Option<u64> {
        self.host.wake()
    }

    pub fn connections(&self) -> usize {
        self.host.connections()
    }

    /// Drops the station, with its host and all packets.
    pub fn end(self) {}
}

/// The two hosts, unless the second was refused.
pub fn both(
    one: Station,
    other: Result<Station, HostFault>,
) -> Result<(Station, Station), HostFault> {
    match other {
        Ok(other) => Ok((one, other)),
        Err(fault) => {
            one.end();
            Err(fault)
        }
    }
}
