//! Numbers that look random.

/// Numbers that look random, and are the same each time for a seed.
#[derive(Drop)]
pub struct Generator {
    state: u64,
}

impl Generator {
    pub fn new(seed: u64) -> Generator {
        Generator { state: seed }
    }

    /// A number below the bound.
    pub fn below(&mut self, bound: u16) -> u16 {
        self.state = self
            .state
            .wrapping_mul(6_364_136_223_846_793_005)
            .wrapping_add(1_442_695_040_888_963_407);
        let number = (self.state >> 33).checked_rem(u64::from(bound));
        u16::try_from(number.unwrap_or(0)).unwrap_or(0)
    }

    /// Any byte.
    pub fn byte(&mut self) -> u8 {
        let [_, low] = self.below(256).to_be_bytes();
        low
    }

    /// Any number of two bytes, one at the edges, or one near this.
    pub fn number_near(&mut self, number: u16) -> u16 {
        match self.below(3) {
            0 => u16::from_be_bytes([self.byte(), self.byte()]),
            1 => match self.below(5) {
                0 => 0,
                1 => 1,
                2 => 32_767,
                3 => 32_768,
                _ => 65_535,
            },
            _ => number.wrapping_add(self.below(9)).wrapping_sub(4),
        }
    }
}
