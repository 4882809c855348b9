//! Waiting, as the workers in other languages wait.
use std::hint::spin_loop;
use std::thread::yield_now;

/// How often the processor is kept.
const SPINS: u32 = 64;

/// How often one thread tries before it takes the others for stopped.
pub const TRIES: u64 = 1_000_000_000;

/// Waits between tries. The first waits are one pause each, so that what comes is seen at once; later ones give the
/// processor away. (`Backoff` pauses longer and longer, and the workers that this is compared with do not.)
#[derive(Clone, Copy)]
pub struct Rest {
    turns: u32,
}

impl Rest {
    pub fn new() -> Rest {
        Rest { turns: 0 }
    }

    pub fn wait(&mut self) {
        if self.turns < SPINS {
            self.turns += 1;
            spin_loop();
        } else {
            yield_now();
        }
    }

    /// The next waits are short again.
    pub fn reset(&mut self) {
        self.turns = 0;
    }
}
