use host_scenes::player::SERVER;
use host_scenes::station::{LISTED, Station, both};
use std::alloc::Global;
use xns_host::{HostFault, Settings};

/// A host that makes a call and abandons it, and the one that it calls.
#[derive(Drop)]
pub struct Abandoned {
    client: Station,
    server: Station,
    number: usize,
    /// How many packets came to the client afterwards, and how many of them it took.
    came: usize,
    taken: usize,
}

impl Abandoned {
    pub fn new(alloc: Global) -> Result<Abandoned, HostFault> {
        let usual = Settings::default();
        let client = Station::new(alloc, [0, 0, 170, 0, 5, 0], usual, [5; 32])?;
        let (client, server) = both(client, Station::new(alloc, SERVER.host, usual, [6; 32]))?;
        Ok(Abandoned {
            client,
            server,
            number: 0,
            came: 0,
            taken: 0,
        })
    }

    /// Carries the call to the server.
    fn call(&mut self) -> Result<(), HostFault> {
        self.server.serve(SERVER.socket, &[LISTED])?;
        self.number = self.client.connect(0, 1_024, SERVER)?;
        self.client.call(0, self.number, 7, &[1, 2, 3])?;
        for _ in 0..10 {
            let Some(out) = self.client.next_packet(0)? else {
                return Ok(());
            };
            self.server.receive(0, 0, out.packet.as_slice());
        }
        Ok(())
    }

    /// Carries the packets of the server to the client, at this time.
    fn reply(&mut self, now: u64) -> Result<(), HostFault> {
        for _ in 0..10 {
            let Some(out) = self.server.next_packet(now)? else {
                return Ok(());
            };
            self.came = self.came.saturating_add(1);
            if self.client.receive(now, 0, out.packet.as_slice()) {
                self.taken = self.taken.saturating_add(1);
            }
        }
        Ok(())
    }

    /// Runs the play, and appends the outcome.
    pub fn run_and_tell(&mut self, text: &mut String) -> Result<(), anyhow::Error> {
        self.call()?;
        self.client.abandon(self.number)?;
        self.reply(0)?;
        self.reply(60_000)?;
        write!(
            text,
            "{} connections, {} of {} packets taken",
            self.client.connections(),
            self.taken,
            self.came
        )?;
        if self.client.next_event().is_none() && self.client.wake().is_none() {
            text.push_str(", nothing to tell or to do")?;
        }
        match self.client.abandon(self.number) {
            Err(HostFault::NoConnection { .. }) => text.push_str(", gone")?,
            _ => text.push_str(", there")?,
        }
        Ok(())
    }
}
