use crate::step::Step;
use item_world::Side;

/// Numbers that look random, always the same.
#[derive(Drop)]
pub struct Generator {
    state: u64,
}

impl Generator {
    pub fn new(state: u64) -> Generator {
        Generator { state }
    }

    /// A number below the bound.
    fn below(&mut self, bound: u64) -> u64 {
        self.state = self
            .state
            .wrapping_mul(6_364_136_223_846_793_005)
            .wrapping_add(1_442_695_040_888_963_407);
        (self.state >> 33).checked_rem(bound).unwrap_or_default()
    }

    /// Any step; a delivery is of one of the first packets, so that many come again and late.
    pub fn step(&mut self, number: u32) -> Step {
        let side = if self.below(2) == 0 { Side::A } else { Side::B };
        let kind = self.below(32);
        if kind < 12 {
            Step::Deliver(self.below(u64::from(number) + 1) as usize)
        } else if kind < 20 {
            Step::Send(side, number)
        } else if kind < 28 {
            Step::Take(side)
        } else if kind < 30 {
            Step::Tick(side)
        } else {
            Step::Rest
        }
    }
}
