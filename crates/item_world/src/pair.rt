//! The two ends of a play.

ghost use Rattle.std.specs.Prelude.{◌≡◌};
ghost use Rattle.std.specs.Borrow.{sem};
ghost use Rattle.item_world.specs.Play.{LendsSide, at_side};

use crate::participant::Participant;
use crate::side::Side;

/// The two ends of a play.
#[derive(Drop)]
pub struct Pair {
    pub a: Participant,
    pub b: Participant,
}

impl Pair {
    /// The end at this side.
    pub fn at(&mut self, side: Side) -> &mut Participant
        ensures* lends { sem 𝓛 (LendsSide self.entry side result) }
        ensures value { result.now ≡ at_side self.old side }
    {
        match side {
            Side::A => &mut self.a,
            Side::B => &mut self.b,
        }
    }
}
