use crate::manner::Manner;
use courier_messages::{PiecedMessage, put_out, versions};
use host_scenes::player::SERVER;
use host_scenes::station::Station;
use std::alloc::{AllocError, Global};
use std::collections::VecDeque;
use xns_host::{Event, HostFault, Settings, Why};
use xns_idp::Address;
use xns_spp::datastreams::{END, END_REPLY};
use xns_spp::{Bytes, Endpoint, Item, opening};

/// Where the peer is.
const PEER: Address = Address {
    network: 1,
    host: [0, 0, 170, 0, 3, 0],
    socket: 3_000,
};

/// How long a meeting is, in milliseconds.
const LONGEST: u64 = 600_000;

/// A call's beginning: versions 3 to 3, a call, transaction 0, program 7.
const HALF_A_CALL: [u8; 12] = [0, 3, 0, 3, 0, 0, 0, 0, 0, 0, 0, 7];

/// The words of a long call: 30 items, where the window of one end and the backlog of the other hold 24.
const LONG: [u16; 8_000] = [7; 8_000];

/// A host, and a peer that is odd.
#[derive(Drop)]
pub struct Meeting {
    alloc: Global,
    manner: Manner,
    host: Station,
    /// The end of the peer. `None`: the peer was not called yet.
    peer: Option<Endpoint>,
    /// The items that the peer has still to send.
    out: VecDeque<Item>,
    /// The packet that the peer sent first.
    first: Option<Bytes>,
    now: u64,
    packets: usize,
    answered: usize,
    closed: Option<Why>,
}

fn item_of(alloc: Global, stream: u8, bytes: &[u8]) -> Result<Item, AllocError> {
    Ok(Item {
        stream,
        attention: false,
        last: stream != 0,
        body: Bytes::new(Vec::from_slice(alloc, bytes)?),
    })
}

/// Puts a long call behind the items that are out.
fn put_call(alloc: Global, transaction: u16, out: &mut VecDeque<Item>) -> Result<(), AllocError> {
    let mut words = Vec::new(alloc);
    words.extend_from_slice(&[0, transaction, 0, 7, 2, 1])?;
    words.extend_from_slice(&LONG)?;
    put_out(alloc, words.as_slice(), out)
}

/// Two long calls.
fn long_calls(alloc: Global) -> Result<VecDeque<Item>, AllocError> {
    let mut out = versions(alloc)?;
    put_call(alloc, 1, &mut out)?;
    put_call(alloc, 2, &mut out)?;
    Ok(out)
}

/// Half of a call.
fn half_a_call(alloc: Global) -> Result<VecDeque<Item>, AllocError> {
    let mut out = VecDeque::new(alloc);
    out.push_back(item_of(alloc, 0, &HALF_A_CALL)?)?;
    Ok(out)
}

/// Has the peer's end accept the items that it has room for.
fn send_more(peer: &mut Endpoint, out: &mut VecDeque<Item>) {
    for _ in 0..out.len() {
        if peer.is_full() {
            return;
        }
        if let Some(item) = out.pop_front() {
            let _ = peer.send(item);
        }
    }
}

/// Has the peer read all that came, and returns whether that asks it to close.
fn read_all(peer: &mut Endpoint) -> bool {
    let mut is_asked = false;
    for _ in 0..peer.waiting() {
        if let Some(item) = peer.take() {
            is_asked = is_asked || item.stream == END;
        }
    }
    is_asked
}

impl Meeting {
    pub fn new(alloc: Global, manner: Manner) -> Result<Meeting, HostFault> {
        let host = Station::new(alloc, SERVER.host, Settings::default(), [1; 32])?;
        Ok(Meeting {
            alloc,
            manner,
            host,
            peer: None,
            out: VecDeque::new(alloc),
            first: None,
            now: 0,
            packets: 0,
            answered: 0,
            closed: None,
        })
    }

    /// The host is called, or calls.
    fn begin(&mut self) -> Result<(), anyhow::Error> {
        match self.manner {
            Manner::ClosesInACall => {
                self.out = half_a_call(self.alloc)?;
                self.be_called()
            }
            Manner::ReadsLate | Manner::ReadsWhileFull => {
                self.out = long_calls(self.alloc)?;
                self.be_called()
            }
            Manner::FallsSilent | Manner::AcknowledgesNothing | Manner::GivesNoRoom => {
                self.call()?;
                Ok(())
            }
            Manner::AgreesAtOnce => {
                let number = self.call()?;
                self.host.close(0, number)?;
                Ok(())
            }
        }
    }

    /// Has the host call the peer, with more words than the peer has room for, and returns the number of the connection.
    fn call(&mut self) -> Result<usize, HostFault> {
        let number = self.host.connect(0, 1_024, PEER)?;
        self.host.call(0, number, 7, &[7; 5_000])?;
        Ok(number)
    }

    /// The peer opens a connection to the host, which it closes once all is sent.
    fn be_called(&mut self) -> Result<(), anyhow::Error> {
        self.host.serve(SERVER.socket, &[])?;
        let mut peer = Endpoint::initiator(self.alloc, PEER, 9, SERVER, 8, 16)?;
        for packet in &peer.tick(self.alloc)? {
            self.host.receive(0, 0, packet.as_slice());
        }
        self.out.push_back(item_of(self.alloc, END, &[])?)?;
        self.out.push_back(item_of(self.alloc, END_REPLY, &[])?)?;
        self.peer = Some(peer);
        Ok(())
    }

    /// The peer receives the packet that opens the connection, and replies.
    fn open(&mut self, bytes: &[u8]) -> Result<(), AllocError> {
        let Some((caller, id)) = opening(bytes) else {
            return Ok(());
        };
        if id == 0 {
            return Ok(());
        }
        let mut peer = Endpoint::responder(self.alloc, PEER, 9, caller, id, 8, 16)?;
        self.first = peer.receive(self.alloc, bytes)?.reply;
        self.peer = Some(peer);
        self.say_again();
        Ok(())
    }

    /// The peer sends again the packet that it sent first.
    fn say_again(&mut self) {
        if let Some(first) = &self.first {
            self.host.receive(self.now, 0, first.as_slice());
        }
    }

    /// The peer receives a packet, and its packets come to the host.
    fn hear(&mut self, bytes: &[u8]) -> Result<(), AllocError> {
        let Some(peer) = &mut self.peer else {
            return self.open(bytes);
        };
        match self.manner {
            Manner::FallsSilent => {}
            Manner::AcknowledgesNothing => self.say_again(),
            Manner::GivesNoRoom
            | Manner::ClosesInACall
            | Manner::ReadsLate
            | Manner::ReadsWhileFull
            | Manner::AgreesAtOnce => {
                if let Some(reply) = peer.receive(self.alloc, bytes)?.reply {
                    self.host.receive(self.now, 0, reply.as_slice());
                }
                send_more(peer, &mut self.out);
                if self.manner.reads(self.out.is_empty(), peer.is_full())
                    && read_all(peer)
                    && self.manner == Manner::AgreesAtOnce
                {
                    self.out.push_back(item_of(self.alloc, END_REPLY, &[])?)?;
                    send_more(peer, &mut self.out);
                }
                for packet in &peer.flush(self.alloc)? {
                    self.host.receive(self.now, 0, packet.as_slice());
                }
            }
        }
        Ok(())
    }

    /// Carries the host's next packet to the peer, and returns whether there was one.
    fn step(&mut self) -> Result<bool, anyhow::Error> {
        let Some(out) = self.host.next_packet(self.now)? else {
            return Ok(false);
        };
        self.packets = self.packets.saturating_add(1);
        self.hear(out.packet.as_slice())?;
        Ok(true)
    }

    /// Takes in the events of the host.
    fn listen(&mut self) -> Result<(), anyhow::Error> {
        match self.host.next_event() {
            Some(event) => self.hear_event(&event),
            None => Ok(()),
        }
    }

    fn hear_event(&mut self, event: &Event) -> Result<(), anyhow::Error> {
        match event {
            Event::Call {
                number,
                message,
                ..
            } => return self.answer(*number, message),
            Event::Opened { .. } | Event::Answer { .. } => {}
            Event::Closed { why, .. } => self.closed = Some(*why),
        }
        Ok(())
    }

    /// Answers a call by its own words.
    fn answer(&mut self, number: usize, message: &PiecedMessage) -> Result<(), anyhow::Error> {
        let words = message.words(self.alloc)?;
        self.answered = self.answered.saturating_add(1);
        Ok(self.host.answer(self.now, number, words.as_slice())?)
    }

    /// A timeout at a peer that insists.
    fn insist(&mut self) -> Result<(), AllocError> {
        if !self.manner.insists() {
            return Ok(());
        }
        if let Some(peer) = &mut self.peer {
            for packet in &peer.tick(self.alloc)? {
                self.host.receive(self.now, 0, packet.as_slice());
            }
        }
        Ok(())
    }

    /// Lets both talk while the host has packets, and goes on to when the host wants to be asked again. Returns whether there is such a
    /// time.
    fn talk(&mut self) -> Result<bool, anyhow::Error> {
        for _ in 0..100 {
            if !self.step()? {
                break;
            }
        }
        self.listen()?;
        let Some(at) = self.host.wake() else {
            return Ok(false);
        };
        if at > self.now {
            self.now = at;
            self.insist()?;
        }
        Ok(self.now <= LONGEST)
    }

    /// Lets both talk until the host is at rest, or for ten minutes.
    fn run(&mut self) -> Result<(), anyhow::Error> {
        for _ in 0..1_000 {
            if !self.talk()? {
                break;
            }
        }
        Ok(())
    }

    /// Appends the outcome of the play.
    fn tell(&self, text: &mut String) -> Result<(), AllocError> {
        match self.closed {
            Some(why) => write!(text, "closed, {why:?}, ")?,
            None => text.push_str("open, ")?,
        }
        if self.manner.insists() {
            write!(text, "{} of 2 calls answered, ", self.answered)?;
        }
        write!(text, "{} packets, {} ms", self.packets, self.now)
    }

    /// Runs the play to its end, and appends the outcome.
    pub fn run_and_tell(&mut self, text: &mut String) -> Result<(), anyhow::Error> {
        self.begin()?;
        self.run()?;
        Ok(self.tell(text)?)
    }
}
