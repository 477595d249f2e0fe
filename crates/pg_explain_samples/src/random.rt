//! Pseudorandom numbers, the same in each run.

/// A generator of numbers.
#[derive(Drop)]
pub(crate) struct Random {
    state: u64,
}

impl Random {
    /// A generator with this seed.
    pub(crate) fn new(seed: u64) -> Random {
        Random {
            state: seed
                .wrapping_mul(0x9e37_79b9_7f4a_7c15)
                .wrapping_add(0x1234_5678_9abc_def1),
        }
    }

    /// A number below the limit, or 0 if the limit is 0.
    pub(crate) fn below(&mut self, limit: usize) -> usize {
        self.state = self
            .state
            .wrapping_mul(6_364_136_223_846_793_005)
            .wrapping_add(1_442_695_040_888_963_407);
        if limit == 0 {
            return 0;
        }
        ((self.state >> 33) as usize) % limit
    }
}
