use crate::network::{Flying, Network};
use crate::outcome::{Outcome, put_count};
use crate::player::{Player, SERVER, earlier};
use crate::scene::Scene;
use crate::strangers;
use courier_sessions::Program;
use std::alloc::{AllocError, Global};

/// The program that the server has.
const LISTED: [Program; 1] = [Program {
    number: 7,
    lowest: 1,
    highest: 3,
}];

/// From when on strangers come, in milliseconds.
const STRANGERS_COME: u64 = 5_000;

/// How long a play is, in milliseconds.
const LONGEST: u64 = 600_000;

/// A play, in which player 0 is called and the others call.
#[derive(Drop)]
pub struct Play {
    alloc: Global,
    scene: Scene,
    players: Vec<Player>,
    network: Network,
    now: u64,
    /// How many strangers have come.
    strangers: usize,
}

impl Play {
    pub fn new(alloc: Global, scene: Scene) -> Play {
        Play {
            alloc,
            scene,
            players: Vec::new(alloc),
            network: Network::new(alloc, scene),
            now: 0,
            strangers: 0,
        }
    }

    /// The player with this number enters: player 0 serves its program, the others connect to it.
    fn enter(&mut self, number: usize) -> Result<(), anyhow::Error> {
        let player = Player::new(self.alloc, self.scene, number)?;
        self.players.push(player)?;
        match self.players.last_mut() {
            Some(player) if number > 0 => player.begin(0)?,
            Some(server) => server.host.serve(SERVER.socket, &LISTED)?,
            None => {}
        }
        Ok(())
    }

    /// All players enter.
    fn enter_all(&mut self) -> Result<(), anyhow::Error> {
        for number in 0..self.scene.clients.saturating_add(1) {
            self.enter(number)?;
        }
        Ok(())
    }

    fn outcome(&self) -> Outcome {
        let mut all = Outcome::default();
        for player in &self.players {
            all.add(&player.outcome);
        }
        all
    }

    /// Appends the outcome of the play.
    fn tell(&self, text: &mut String) -> Result<(), AllocError> {
        self.outcome().put(text)?;
        put_count(text, self.network.packets(), "packets")?;
        put_count(text, self.network.again(), "of them again")?;
        write!(text, "{} ms", self.now)
    }

    /// Lets a player do one thing, and returns whether there was one.
    fn step(&mut self, place: usize) -> Result<bool, anyhow::Error> {
        let Some(player) = self.players.get_mut(place) else {
            return Ok(false);
        };
        if player.step(self.now)? {
            return Ok(true);
        }
        let Some(out) = player.host.next_packet(self.now)? else {
            return Ok(false);
        };
        self.network
            .send(self.now, place, out.via as usize, out.packet.as_slice())?;
        Ok(true)
    }

    /// Lets a player do what it can.
    fn turn(&mut self, place: usize) -> Result<(), anyhow::Error> {
        for _ in 0..10_000 {
            if !self.step(place)? {
                break;
            }
        }
        Ok(())
    }

    /// When something happens next.
    fn next_time(&self) -> Option<u64> {
        let mut first = self.network.next_time();
        for player in &self.players {
            first = earlier(first, player.next_time());
        }
        first
    }

    /// Brings a packet to its player, if there is one, who then does what it can.
    fn deliver(&mut self, packet: Flying) -> Result<(), anyhow::Error> {
        let to = packet.to;
        if let Some(player) = self.players.get_mut(to) {
            let via = packet.from as u64;
            player.host.receive(self.now, via, packet.bytes.as_slice());
        }
        self.turn(to)
    }

    /// Lets a player do what it can, if its time has come.
    fn wake(&mut self, place: usize) -> Result<(), anyhow::Error> {
        let is_due = match self.players.get(place) {
            Some(player) => player.is_due(self.now),
            None => false,
        };
        if is_due {
            self.turn(place)?;
        }
        Ok(())
    }

    /// Ten strangers come, while there are some left, once the clients had time to begin.
    fn come(&mut self) -> Result<(), AllocError> {
        if self.now < STRANGERS_COME {
            return Ok(());
        }
        for _ in 0..10 {
            if self.strangers >= self.scene.strangers {
                return Ok(());
            }
            if let Some(server) = self.players.first_mut() {
                strangers::come(self.alloc, self.now, self.strangers, &mut server.host)?;
            }
            self.strangers = self.strangers.saturating_add(1);
        }
        Ok(())
    }

    /// Goes on to the next time at which something happens, and returns whether there is one.
    fn advance(&mut self) -> Result<bool, anyhow::Error> {
        let Some(at) = self.next_time() else {
            return Ok(false);
        };
        self.now = self.now.max(at);
        self.come()?;
        for _ in 0..10_000 {
            let Some(packet) = self.network.arrived(self.now) else {
                break;
            };
            self.deliver(packet)?;
        }
        Ok(self.now <= LONGEST)
    }

    /// Whether all clients are done, and the server knows.
    fn is_over(&self) -> bool {
        let outcome = self.outcome();
        outcome.asked >= self.scene.clients && outcome.by_peer >= self.scene.clients
    }

    /// Plays until all is done, or for ten minutes.
    fn run(&mut self) -> Result<(), anyhow::Error> {
        for _ in 0..1_000_000 {
            for place in 0..self.players.len() {
                self.wake(place)?;
            }
            if self.is_over() || !self.advance()? {
                break;
            }
        }
        Ok(())
    }

    /// Runs the play to its end, and appends the outcome.
    pub fn run_and_tell(&mut self, text: &mut String) -> Result<(), anyhow::Error> {
        self.enter_all()?;
        self.run()?;
        Ok(self.tell(text)?)
    }
}
