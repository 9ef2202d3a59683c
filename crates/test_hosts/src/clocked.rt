use host_scenes::player::SERVER;
use host_scenes::station::Station;
use std::alloc::Global;
use xns_host::{Event, HostFault, Settings};

/// How long a connection is played, in milliseconds.
const LONGEST: u64 = 600_000;

/// How far the clock is ahead before it is set, in milliseconds.
const AHEAD: u64 = 3_600_000;

/// What the clock of a program shows.
#[derive(Clone, Copy)]
pub enum Shown {
    /// The right time.
    Right,
    /// An hour more, until it is set back after a second.
    SetBack,
    /// The right time, but once the last of 64 bits.
    OnceFarAhead,
}

impl Shown {
    pub const ALL: [Shown; 3] = [Shown::Right, Shown::SetBack, Shown::OnceFarAhead];

    pub fn name(self) -> &'static str {
        match self {
            Shown::Right => "a peer that is not there",
            Shown::SetBack => "the same, by a clock that is set back",
            Shown::OnceFarAhead => "the same, by a clock that is once far ahead",
        }
    }

    /// What the clock shows at this time, after so many turns.
    fn at(self, now: u64, turns: usize) -> u64 {
        match self {
            Shown::SetBack if now < 1_000 => now.saturating_add(AHEAD),
            Shown::OnceFarAhead if turns == 2 => u64::MAX,
            Shown::Right | Shown::SetBack | Shown::OnceFarAhead => now,
        }
    }
}

/// A host that calls a peer that is not there, and its program, which goes by such a clock.
#[derive(Drop)]
pub struct Clocked {
    host: Station,
    shown: Shown,
    /// The right time.
    now: u64,
    turns: usize,
    packets: usize,
    /// When the program fetched the event that the connection is closed.
    told: Option<u64>,
}

impl Clocked {
    pub fn new(alloc: Global, shown: Shown) -> Result<Clocked, HostFault> {
        let usual = Settings::default();
        let mut host = Station::new(alloc, [0, 0, 170, 0, 5, 0], usual, [5; 32])?;
        host.connect(shown.at(0, 0), 1_024, SERVER)?;
        Ok(Clocked {
            host,
            shown,
            now: 0,
            turns: 0,
            packets: 0,
            told: None,
        })
    }

    /// What the clock shows.
    fn clock(&self) -> u64 {
        self.shown.at(self.now, self.turns)
    }

    /// Fetches all events.
    fn listen(&mut self) {
        for _ in 0..100 {
            match self.host.next_event() {
                Some(Event::Closed { .. }) => self.told = Some(self.now),
                Some(_) => {}
                None => return,
            }
        }
    }

    /// Fetches all packets, which are lost.
    fn send(&mut self, now: u64) -> Result<(), HostFault> {
        for _ in 0..100 {
            if self.host.next_packet(now)?.is_none() {
                return Ok(());
            }
            self.packets = self.packets.saturating_add(1);
        }
        Ok(())
    }

    /// Makes one turn of a program's loop: events, packets, and the wait. Returns whether there is something to wait
    /// for.
    fn turn(&mut self) -> Result<bool, HostFault> {
        let now = self.clock();
        self.listen();
        self.send(now)?;
        self.turns = self.turns.saturating_add(1);
        let Some(wake) = self.host.wake() else {
            return Ok(false);
        };
        let rest = wake.saturating_sub(self.clock());
        self.now = self.now.saturating_add(rest);
        Ok(self.now <= LONGEST)
    }

    /// Runs the play until the host is at rest, or for ten minutes, and appends the outcome.
    pub fn run_and_tell(&mut self, text: &mut String) -> Result<(), anyhow::Error> {
        for _ in 0..1_000 {
            if !self.turn()? {
                break;
            }
        }
        match self.told {
            Some(time) => write!(text, "closed, told at {time} ms, ")?,
            None => text.push_str("not closed, ")?,
        }
        write!(text, "{} packets, {} turns", self.packets, self.turns)?;
        Ok(())
    }
}
