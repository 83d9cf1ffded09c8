//! Numbers that look random, and the same in each run.

/// The linear congruential generator of D. Knuth's MMIX, modulo 2 to the power of 64.
#[derive(Drop)]
pub struct Random {
    state: u64,
}

impl Random {
    pub fn new(seed: u32) -> Random {
        Random {
            state: u64::from(seed),
        }
    }

    /// The next number, below that bound; 0 where the bound is 0.
    pub fn below(&mut self, bound: usize) -> usize {
        self.state = self
            .state
            .wrapping_mul(6_364_136_223_846_793_005)
            .wrapping_add(1_442_695_040_888_963_407);
        let high = (self.state >> 33) as usize;
        high % bound.max(1)
    }
}
