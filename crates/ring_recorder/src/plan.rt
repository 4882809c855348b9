//! The storm that the command line asks for.

/// How the ring keeps bodies.
#[derive(Clone, Copy)]
pub enum Form {
    /// In atomic words.
    Words,
    /// In plain memory.
    Slots,
}

/// A storm.
#[derive(Clone, Copy)]
pub struct Plan {
    pub form: Form,
    /// The capacity of the ring, in bytes.
    pub capacity: u32,
    /// The position at which the ring begins.
    pub start: u64,
    pub producers: u32,
    /// How many claims each producer makes.
    pub claims: u32,
    pub seed: u64,
}

/// The most producers of a storm.
const MOST: u32 = 64;

impl Plan {
    /// Returns the storm that these words ask for, or `None` if they ask for none. The first word is the program's name.
    pub fn of(words: &[String]) -> Option<Plan> {
        let [_, form, capacity, producers, claims, seed] = words else {
            return None;
        };
        let form = match form.as_str() {
            "words" => Form::Words,
            "slots" => Form::Slots,
            _ => return None,
        };
        let capacity: u32 = capacity.parse().ok()?;
        let producers: u32 = producers.parse().ok()?;
        let seed: u64 = seed.parse().ok()?;
        if producers == 0 || producers > MOST {
            return None;
        }
        let start = match seed % 3 {
            0 => 1 << 40,
            laps => laps * u64::from(capacity),
        };
        Some(Plan {
            form,
            capacity,
            start,
            producers,
            claims: claims.parse().ok()?,
            seed,
        })
    }

    /// Returns the number of bytes of the longest message.
    pub fn longest(&self) -> u32 {
        self.capacity / 8
    }
}
