use crate::outcome::{Outcome, put_count};
use crate::player::SERVER;
use crate::station::{LISTED, Station, both};
use courier_messages::PiecedMessage;
use std::alloc::{AllocError, Global};
use xns_host::{Event, HostFault, Settings};

/// How many connections a crowd has at once.
const CONNECTIONS: usize = 1_000;

/// One packet in so many is lost.
const LOST: usize = 100;

/// How long the closing of all connections is played, in milliseconds.
const CLOSING: u64 = 60_000;

/// Two hosts with a thousand connections at once, on each of which a call is made every second.
#[derive(Drop)]
pub struct Crowd {
    alloc: Global,
    client: Station,
    server: Station,
    now: u64,
    packets: usize,
    /// How many calls were not made, since the one before them waited still.
    busy: usize,
    outcome: Outcome,
}

/// A host of a crowd.
fn host_of(alloc: Global, host: [u8; 6]) -> Result<Station, HostFault> {
    let settings = Settings {
        connections: CONNECTIONS,
        ..Settings::default()
    };
    Station::new(alloc, host, settings, [3; 32])
}

/// Carries the packets of one host to the other, of which some are lost.
fn carry(
    now: u64,
    packets: &mut usize,
    from: &mut Station,
    to: &mut Station,
) -> Result<(), HostFault> {
    for _ in 0..CONNECTIONS {
        let Some(out) = from.next_packet(now)? else {
            break;
        };
        *packets = packets.saturating_add(1);
        if *packets % LOST != 0 {
            to.receive(now, 0, out.packet.as_slice());
        }
    }
    Ok(())
}

/// The words of a call: its connection, and which of its calls it is.
fn words_at(number: usize, now: u64) -> [u16; 3] {
    [(number % 65_536) as u16, (now / 1_000 % 65_536) as u16, 7]
}

impl Crowd {
    pub fn new(alloc: Global) -> Result<Crowd, HostFault> {
        let client = host_of(alloc, [0, 0, 170, 0, 4, 0])?;
        let (client, server) = both(client, host_of(alloc, SERVER.host))?;
        Ok(Crowd {
            alloc,
            client,
            server,
            now: 0,
            packets: 0,
            busy: 0,
            outcome: Outcome::default(),
        })
    }

    /// Serves the program, and opens all connections.
    fn open(&mut self) -> Result<(), HostFault> {
        self.server.serve(SERVER.socket, &[LISTED])?;
        for _ in 0..CONNECTIONS {
            self.client.connect(self.now, 1_024, SERVER)?;
        }
        Ok(())
    }

    /// Makes a call, unless the one before it waits still.
    fn call(&mut self, number: usize) {
        let words = words_at(number, self.now);
        if self.client.call(self.now, number, 7, &words).is_err() {
            self.busy = self.busy.saturating_add(1);
        }
    }

    /// Takes in an event of a host. A call is answered by its own words.
    fn hear(&mut self, event: &Event) -> Result<(), AllocError> {
        match event {
            Event::Call {
                number,
                message,
                ..
            } => self.answer(*number, message),
            Event::Answer {
                number,
                message,
                ..
            } => self.take_answer(*number, message),
            Event::Opened { .. } => Ok(()),
            Event::Closed { why, .. } => {
                self.outcome.closed(*why);
                Ok(())
            }
        }
    }

    fn answer(&mut self, number: usize, message: &PiecedMessage) -> Result<(), AllocError> {
        let words = message.words(self.alloc)?;
        let _ = self.server.answer(self.now, number, words.as_slice());
        Ok(())
    }

    fn take_answer(&mut self, number: usize, message: &PiecedMessage) -> Result<(), AllocError> {
        let words = message.words(self.alloc)?;
        self.answered(number, words.as_slice());
        Ok(())
    }

    /// Takes in an answer, which is right if it is that of the connection's last call.
    fn answered(&mut self, number: usize, words: &[u16]) {
        let is_right = match words {
            [connection, second, 7] => {
                usize::from(*connection) == number && self.is_recent(u64::from(*second))
            }
            _ => false,
        };
        self.outcome.answered(is_right);
    }

    /// Whether a call of this second may be answered only now.
    fn is_recent(&self, second: u64) -> bool {
        let asked = second.saturating_mul(1_000);
        asked <= self.now && self.now <= asked.saturating_add(10_000)
    }

    /// Takes in the events of both hosts.
    fn hear_all(&mut self) -> Result<(), AllocError> {
        for _ in 0..CONNECTIONS {
            let Some(event) = self.server.next_event() else {
                break;
            };
            self.hear(&event)?;
        }
        for _ in 0..CONNECTIONS {
            let Some(event) = self.client.next_event() else {
                break;
            };
            self.hear(&event)?;
        }
        Ok(())
    }

    /// Lets both hosts do what they can.
    fn talk(&mut self) -> Result<(), anyhow::Error> {
        carry(
            self.now,
            &mut self.packets,
            &mut self.client,
            &mut self.server,
        )?;
        self.hear_all()?;
        carry(
            self.now,
            &mut self.packets,
            &mut self.server,
            &mut self.client,
        )?;
        self.hear_all()?;
        Ok(())
    }

    /// Plays one millisecond, in which one connection of the thousand calls.
    fn tick(&mut self) -> Result<(), anyhow::Error> {
        self.call((self.now % 1_000) as usize);
        self.talk()?;
        self.now = self.now.saturating_add(1);
        Ok(())
    }

    /// Closes all connections, behind the calls that are out.
    fn close(&mut self) -> Result<(), HostFault> {
        for number in 0..CONNECTIONS {
            self.client.close(self.now, number)?;
        }
        Ok(())
    }

    /// Lets the connections call for so many seconds.
    fn call_for(&mut self, seconds: u64) -> Result<(), anyhow::Error> {
        for _ in 0..seconds.saturating_mul(1_000) {
            self.tick()?;
        }
        Ok(())
    }

    /// Lets the connections close.
    fn end(&mut self) -> Result<(), anyhow::Error> {
        for _ in 0..CLOSING {
            if self.outcome.asked >= CONNECTIONS && self.outcome.by_peer >= CONNECTIONS {
                break;
            }
            self.talk()?;
            self.now = self.now.saturating_add(1);
        }
        Ok(())
    }

    /// Lets the connections call for so many seconds, and close.
    fn run(&mut self, seconds: u64) -> Result<(), anyhow::Error> {
        self.open()?;
        self.call_for(seconds)?;
        self.close()?;
        self.end()
    }

    /// Appends the outcome of the play.
    fn tell(&self, text: &mut String) -> Result<(), AllocError> {
        self.outcome.put(text)?;
        put_count(text, self.busy, "calls not made")?;
        put_count(text, self.packets, "packets")?;
        write!(text, "{} ms", self.now)
    }

    /// Runs the play to its end, and appends the outcome.
    pub fn run_and_tell(&mut self, seconds: u64, text: &mut String) -> Result<(), anyhow::Error> {
        self.run(seconds)?;
        Ok(self.tell(text)?)
    }
}
