use crate::scene::Scene;
use crate::sent::Sent;
use std::alloc::{AllocError, Global};

/// A packet on its way.
#[derive(Drop)]
pub struct Flying {
    pub at: u64,
    pub to: usize,
    pub from: usize,
    pub bytes: Vec<u8>,
}

/// A network that loses, repeats, delays and corrupts packets.
#[derive(Drop)]
pub struct Network {
    alloc: Global,
    scene: Scene,
    flying: Vec<Flying>,
    seed: u64,
    packets: usize,
    sent: Sent,
}

impl Network {
    pub fn new(alloc: Global, scene: Scene) -> Network {
        Network {
            alloc,
            scene,
            flying: Vec::new(alloc),
            seed: scene.seed,
            packets: 0,
            sent: Sent::new(alloc),
        }
    }

    /// How many packets were sent.
    pub fn packets(&self) -> usize {
        self.packets
    }

    /// How many of the packets had gone out before.
    pub fn again(&self) -> usize {
        self.sent.again()
    }

    /// A number below this one that looks random; 0 below 0.
    fn random(&mut self, below: u64) -> u64 {
        self.seed = self
            .seed
            .wrapping_mul(6_364_136_223_846_793_005)
            .wrapping_add(1_442_695_040_888_963_407);
        (self.seed >> 33).checked_rem(below).unwrap_or(0)
    }

    /// Turns a bit of the packet, in as many of 100 packets as the scene says.
    fn corrupt(&mut self, bytes: &mut Vec<u8>) {
        if self.random(100) >= self.scene.corrupted {
            return;
        }
        let place = self.random(bytes.len() as u64) as usize;
        if let Some(byte) = bytes.get_mut(place) {
            *byte ^= 32;
        }
    }

    /// How much longer than the least a packet takes.
    fn delay(&mut self) -> u64 {
        let delay = self.random(self.scene.delay);
        if self.scene.late > 0 && self.random(100) < self.scene.late {
            return delay.saturating_add(self.random(100));
        }
        delay
    }

    fn fly(&mut self, now: u64, from: usize, to: usize, bytes: &[u8]) -> Result<(), AllocError> {
        let Some(distance) = self.scene.phase.distance(now, self.scene.distance) else {
            return Ok(());
        };
        let mut bytes = Vec::from_slice(self.alloc, bytes)?;
        self.corrupt(&mut bytes);
        let at = now.saturating_add(distance).saturating_add(self.delay());
        let packet = Flying {
            at,
            to,
            from,
            bytes,
        };
        self.flying.push(packet)?;
        Ok(())
    }

    /// Takes a packet that goes out.
    pub fn send(
        &mut self,
        now: u64,
        from: usize,
        to: usize,
        bytes: &[u8],
    ) -> Result<(), AllocError> {
        self.packets = self.packets.saturating_add(1);
        self.sent.note(bytes)?;
        if self.random(100) >= self.scene.lost {
            self.fly(now, from, to, bytes)?;
        }
        if self.random(100) < self.scene.repeated {
            self.fly(now, from, to, bytes)?;
        }
        Ok(())
    }

    /// When the next packet arrives.
    pub fn next_time(&self) -> Option<u64> {
        self.flying.iter().map(|packet| packet.at).min()
    }

    /// A packet that has arrived.
    pub fn arrived(&mut self, now: u64) -> Option<Flying> {
        let place = self.flying.iter().position(|packet| packet.at <= now)?;
        Some(self.flying.remove(place))
    }
}
