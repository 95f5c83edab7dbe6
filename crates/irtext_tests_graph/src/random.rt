//! Pseudo-random numbers, the same in each run.

/// A generator of numbers: an xorshift over 64 bits, which is never 0.
#[derive(Drop)]
pub struct Random {
    pub state: u64,
}

impl Random {
    /// The generator that each script begins with.
    pub fn new() -> Random {
        Random {
            state: 88172645463325252,
        }
    }

    /// A number below the bound, or 0 if the bound is 0.
    pub fn below(&mut self, bound: usize) -> usize {
        let mut x = self.state;
        x ^= x << 13;
        x ^= x >> 7;
        x ^= x << 17;
        self.state = x;
        if bound == 0 {
            return 0;
        }
        ((x >> 11) % bound as u64) as usize
    }
}
