//! What the threads noted, and the text of a run.
use crate::plan::Plan;
use std::alloc::{AllocError, Global};
use std::fmt::Write;

/// What became of a claim.
#[derive(Clone, Copy)]
pub enum Fate {
    Open,
    /// The claim was committed, with a body that has this checksum.
    Committed(u64),
    Aborted,
}

/// A line of a producer.
#[derive(Clone, Copy)]
pub enum Noted {
    /// The producer claimed room.
    Claimed {
        place: u64,
        type_id: i32,
        length: usize,
        fate: Fate,
    },
    /// A claim of this many bytes was refused for lack of room.
    Full {
        length: usize,
    },
}

/// A message that the consumer was shown.
#[derive(Clone, Copy)]
pub struct Shown {
    /// The position in the first bytes of the body, or `None` if the body is too short.
    pub place: Option<u64>,
    pub type_id: i32,
    pub length: usize,
    /// The checksum of the body.
    pub sum: u64,
}

/// Returns a checksum of these bytes: FNV-1a of 64 bits.
pub fn sum_of(bytes: &[u8]) -> u64 {
    let mut sum: u64 = 14_695_981_039_346_656_037;
    for byte in bytes {
        sum = (sum ^ u64::from(*byte)).wrapping_mul(1_099_511_628_211);
    }
    sum
}

/// Returns the first line of the run of a ring.
pub fn head_line(alloc: Global, plan: &Plan) -> Result<String, AllocError> {
    let mut text = String::new(alloc);
    writeln!(text, "ring {} {}", plan.capacity, plan.start)?;
    Ok(text)
}

/// Appends the lines of a producer.
pub fn write_producer(text: &mut String, producer: u32, lines: &[Noted]) -> Result<(), AllocError> {
    for line in lines {
        match line {
            Noted::Full { length } => writeln!(text, "full {producer} {length}")?,
            Noted::Claimed {
                place,
                type_id,
                length,
                fate,
            } => match fate {
                Fate::Open => writeln!(text, "open {producer} {place} {type_id} {length}")?,
                Fate::Aborted => writeln!(text, "aborted {producer} {place} {type_id} {length}")?,
                Fate::Committed(sum) => writeln!(
                    text,
                    "committed {producer} {place} {type_id} {length} {sum}"
                )?,
            },
        }
    }
    Ok(())
}

/// Appends the lines of the consumer.
pub fn write_consumer(text: &mut String, lines: &[Shown]) -> Result<(), AllocError> {
    for line in lines {
        let Shown {
            place,
            type_id,
            length,
            sum,
        } = line;
        match place {
            Some(place) => writeln!(text, "got {place} {type_id} {length} {sum}")?,
            None => writeln!(text, "got - {type_id} {length} {sum}")?,
        }
    }
    Ok(())
}
