//! Numbers that are drawn.

/// Numbers that are drawn one after another, always the same for a seed: Knuth's linear congruential generator of 64
/// bits (MMIX). Its high bits are its best.
#[derive(Drop)]
pub struct Draws {
    state: u64,
}

impl Draws {
    /// The numbers of this seed.
    pub fn new(seed: u64) -> Draws {
        Draws { state: seed }
    }

    /// The next 64 bits.
    pub fn bits(&mut self) -> u64 {
        self.state = self
            .state
            .wrapping_mul(6_364_136_223_846_793_005)
            .wrapping_add(1_442_695_040_888_963_407);
        self.state
    }

    /// The next number below `limit`; 0 where that is 0.
    pub fn below(&mut self, limit: u32) -> u32 {
        let high = (self.bits() >> 32) as u32;
        if limit == 0 { 0 } else { high % limit }
    }
}
