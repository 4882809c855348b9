//! Numbers that look random, and are the same in each run.
ghost use Rattle.std.specs.Prelude.{◌<◌, ◌≤◌, length};

/// The most bytes of a body.
pub const LONGEST: usize = 144;

/// A sequence of numbers that looks random, and is the same in each run.
#[derive(Drop)]
pub struct Dice(pub u64);

impl Dice {
    pub fn roll(&mut self) -> u64 {
        self.0 ^= self.0 << 13;
        self.0 ^= self.0 >> 7;
        self.0 ^= self.0 << 17;
        self.0
    }

    /// A number below this one.
    pub fn below(&mut self, bound: u32) -> u32
        requires { 0 < bound }
        ensures { result < bound }
    {
        (self.roll() >> 32) as u32 % bound
    }

    pub fn coin(&mut self) -> bool {
        self.below(2) == 0
    }

    /// From -1 on, so that some are refused.
    pub fn type_id(&mut self) -> i32 {
        self.below(16) as i32 - 1
    }

    /// As many bytes as a body has.
    pub fn bytes(&mut self) -> [u8; LONGEST] {
        let mut bytes = [0; LONGEST];
        for byte in &mut bytes {
            *byte = self.below(256) as u8;
        }
        bytes
    }
}
