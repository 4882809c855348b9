//! Random numbers.
ghost use Rattle.std.specs.Prelude.{◌<◌};

/// A generator of random numbers (xorshift).
#[derive(Clone, Copy)]
pub struct Random {
    state: u64,
}

impl Random {
    /// The generator of a thread in a storm with this seed.
    pub fn new(seed: u64, thread: u64) -> Random {
        let state = seed
            .wrapping_mul(1_000_003)
            .wrapping_add(thread)
            .wrapping_add(1);
        Random {
            state: if state == 0 { 1 } else { state },
        }
    }

    /// Returns the next number.
    pub fn draw(&mut self) -> u64 {
        let mut state = self.state;
        state ^= state << 13;
        state ^= state >> 7;
        state ^= state << 17;
        self.state = state;
        state
    }

    /// Returns the next number, as one below this bound, which is not 0.
    pub fn below(&mut self, bound: u32) -> u32
        requires { 0 < bound }
        ensures { result < bound }
    {
        (self.draw() % u64::from(bound)) as u32
    }
}
