//! How many items each end has taken.

ghost use Rattle.std.specs.Prelude.{◌≡◌, ◌≤◌, ◌+◌, ℕ};
ghost use Rattle.xns_spp.specs.Numbers.{most_items};
ghost use Rattle.item_world.specs.Network.{CountsOn, count_of, moment_of};

use crate::moment::Moment;
use crate::side::Side;

/// How many items each end has taken from packets.
#[derive(Clone, Copy)]
pub struct Counts {
    pub a: u64,
    pub b: u64,
}

impl Counts {
    /// How many items one end has taken.
    pub fn of(self, side: Side) -> u64
        ensures { result ≡ count_of self side }
    {
        match side {
            Side::A => self.a,
            Side::B => self.b,
        }
    }

    /// The moment at which an end sends a packet to the other one.
    pub fn moment(self, side: Side) -> Moment
        ensures { result ≡ moment_of self side }
    {
        Moment {
            sender: self.of(side),
            receiver: self.of(side.other()),
        }
    }

    /// Counts so many more items that an end has taken.
    pub fn add(&mut self, side: Side, more: usize)
        ensures { (n : ℕ) → n ≤ most_items → count_of self.old side + more ≡ n → CountsOn self.old self.new side n }
    {
        let count = self.of(side).saturating_add(more as u64);
        match side {
            Side::A => self.a = count,
            Side::B => self.b = count,
        }
    }
}
