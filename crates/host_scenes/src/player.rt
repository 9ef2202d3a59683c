use crate::late::Late;
use crate::outcome::Outcome;
use crate::parting::Parting;
use crate::restart::Restart;
use crate::scene::Scene;
use crate::station::{NETWORK, Station};
use crate::words::{answer_to, words_of};
use courier_messages::PiecedMessage;
use std::alloc::{AllocError, Global};
use std::mem::replace;
use xns_host::{Event, HostFault, Settings};
use xns_idp::Address;

/// The address at which the server is called.
pub const SERVER: Address = Address {
    network: NETWORK,
    host: [0, 0, 170, 0, 1, 0],
    socket: 5,
};

/// A host's number of an address.
pub fn address_of(kind: u8, number: usize) -> [u8; 6] {
    let [high, low] = ((number % 65_536) as u16).to_be_bytes();
    [0, 0, 170, high, kind, low]
}

/// A host, and what its program knows.
#[derive(Drop)]
pub struct Player {
    alloc: Global,
    scene: Scene,
    number: usize,
    pub host: Station,
    /// The connection of a client.
    connection: usize,
    /// How many answers came.
    done: usize,
    late: Vec<Late>,
    restart: Restart,
    pub outcome: Outcome,
}

/// A host that plays in a scene. With another secret its identifiers are others.
fn host_of(
    alloc: Global,
    scene: &Scene,
    number: usize,
    secret: usize,
) -> Result<Station, HostFault> {
    let settings = Settings {
        window: scene.window,
        backlog: scene.backlog,
        idle: scene.idle,
        ..Settings::default()
    };
    let secret = [(secret % 256) as u8; 32];
    Station::new(alloc, address_of(1, number), settings, secret)
}

impl Player {
    pub fn new(alloc: Global, scene: Scene, number: usize) -> Result<Player, HostFault> {
        let restart = if number == 1 {
            scene.restart
        } else {
            Restart::Never
        };
        Ok(Player {
            alloc,
            scene,
            number,
            host: host_of(alloc, &scene, number, number)?,
            connection: 0,
            done: 0,
            late: Vec::new(alloc),
            restart,
            outcome: Outcome::default(),
        })
    }

    /// The client connects, and makes a call.
    pub fn begin(&mut self, now: u64) -> Result<(), HostFault> {
        self.connection = self.host.connect(now, 1_024, SERVER)?;
        self.next(now)
    }

    /// Makes the client's next call, or closes its connection.
    fn next(&mut self, now: u64) -> Result<(), HostFault> {
        if self.done >= self.scene.calls {
            return self.host.close(now, self.connection);
        }
        let Ok(words) = words_of(self.alloc, self.number, self.done, &self.scene) else {
            return Err(HostFault::NoMemory);
        };
        self.host.call(now, self.connection, 7, words.as_slice())?;
        if self.parts_now() {
            self.host.close(now, self.connection)?;
        }
        Ok(())
    }

    /// Whether the client closes behind this call, before it is answered.
    fn parts_now(&self) -> bool {
        self.scene.parting != Parting::Answered && self.done.saturating_add(1) >= self.scene.calls
    }

    /// The client goes on, by a new host where it is started anew.
    fn go_on(&mut self, now: u64) -> Result<(), HostFault> {
        if self.restart == Restart::Never || self.done < self.scene.calls / 2 {
            return self.next(now);
        }
        let secret = match self.restart {
            Restart::SameIdentifier => self.number,
            Restart::Never | Restart::OtherIdentifier => self.number.wrapping_add(100),
        };
        self.restart = Restart::Never;
        let host = host_of(self.alloc, &self.scene, self.number, secret)?;
        replace(&mut self.host, host).end();
        self.begin(now)
    }

    /// Whether this answers the call that the client made last.
    fn is_answer(&self, words: &[u16]) -> Result<bool, AllocError> {
        let asked = words_of(self.alloc, self.number, self.done, &self.scene)?;
        let wanted = answer_to(self.alloc, asked.as_slice())?;
        Ok(wanted.as_slice() == words)
    }

    /// Takes in an answer to the client.
    fn answered(&mut self, now: u64, words: &[u16]) -> Result<(), anyhow::Error> {
        let is_right = self.is_answer(words)?;
        self.outcome.answered(is_right);
        self.done = self.done.saturating_add(1);
        self.go_on(now)?;
        Ok(())
    }

    /// Takes in a call to the server, which is answered in time.
    fn called(&mut self, now: u64, number: usize, words: &[u16]) -> Result<(), AllocError> {
        let words = answer_to(self.alloc, words)?;
        self.late.push(Late {
            at: now.saturating_add(self.scene.thinking),
            number,
            words,
        })?;
        Ok(())
    }

    fn hear_call(
        &mut self,
        now: u64,
        number: usize,
        message: &PiecedMessage,
    ) -> Result<(), anyhow::Error> {
        let words = message.words(self.alloc)?;
        self.called(now, number, words.as_slice())?;
        if self.scene.parting == Parting::Both {
            self.host.close(now, number)?;
        }
        Ok(())
    }

    fn hear_answer(&mut self, now: u64, message: &PiecedMessage) -> Result<(), anyhow::Error> {
        let words = message.words(self.alloc)?;
        self.answered(now, words.as_slice())
    }

    /// Takes in an event of its host.
    fn hear(&mut self, now: u64, event: &Event) -> Result<(), anyhow::Error> {
        match event {
            Event::Call {
                number,
                message,
                ..
            } => self.hear_call(now, *number, message),
            Event::Answer { message, .. } => self.hear_answer(now, message),
            Event::Opened { .. } => Ok(()),
            Event::Closed { why, .. } => {
                self.outcome.closed(*why);
                Ok(())
            }
        }
    }

    /// Takes in an event of its host, or else gives an answer whose time has come. Returns whether there was one of
    /// them.
    pub fn step(&mut self, now: u64) -> Result<bool, anyhow::Error> {
        match self.host.next_event() {
            Some(event) => {
                self.hear(now, &event)?;
                Ok(true)
            }
            None => Ok(self.answer(now)),
        }
    }

    /// Gives an answer whose time has come, and returns whether there was one.
    fn answer(&mut self, now: u64) -> bool {
        let Some(place) = self.late.iter().position(|late| late.at <= now) else {
            return false;
        };
        let late = self.late.swap_remove(place);
        let _ = self.host.answer(now, late.number, late.words.as_slice());
        true
    }

    /// When the player wants to do something.
    pub fn next_time(&self) -> Option<u64> {
        let answer = self.late.iter().map(|late| late.at).min();
        earlier(answer, self.host.wake())
    }

    /// Whether the player wants to do something at this time.
    pub fn is_due(&self, now: u64) -> bool {
        self.next_time().is_some_and(|time| time <= now)
    }
}

/// The earlier of two times, where there is one.
pub fn earlier(one: Option<u64>, other: Option<u64>) -> Option<u64> {
    match (one, other) {
        (Some(one), Some(other)) => Some(one.min(other)),
        (one, other) => one.or(other),
    }
}
