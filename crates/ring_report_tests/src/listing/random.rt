//! Numbers that look random, and are the same in each run.

/// A sequence of numbers that looks random, and is the same in each run.
#[derive(Drop)]
pub struct Numbers(pub u64);

impl Numbers {
    pub fn next(&mut self) -> u64 {
        self.0 ^= self.0 << 13;
        self.0 ^= self.0 >> 7;
        self.0 ^= self.0 << 17;
        self.0
    }

    /// A header whose length and type id are near to valid ones, and now and then any word.
    pub fn next_header(&mut self) -> u64 {
        let number = self.next();
        if number % 8 == 0 {
            number
        } else {
            (number >> 40 & 3) << 32 | number >> 50 & 31
        }
    }
}
