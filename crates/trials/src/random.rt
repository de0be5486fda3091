//! Numbers that look random and are the same in every run: a linear congruential generator.

#[derive(Clone, Copy)]
pub struct Random {
    pub state: u64,
}

impl Random {
    /// The next number below `limit`; 0 for a limit of 0.
    pub fn below(&mut self, limit: u8) -> u8 {
        self.state = self
            .state
            .wrapping_mul(6_364_136_223_846_793_005)
            .wrapping_add(1_442_695_040_888_963_407);
        if limit == 0 {
            return 0;
        }
        u8::try_from((self.state >> 33) % u64::from(limit)).unwrap_or(0)
    }
}
