//! One small function for each kind of step. Each is one load, store, exchange or addition of one word.
pub mod consumer;
pub mod marks;
pub mod producer;
pub mod seats;
pub mod service;
pub mod slots;

ghost use Rattle.std.specs.Prelude.{◌≡◌, ◌+◌, ◌/◌, ◌<◌};

use crate::rule::RingRule;
use crate::view::{Key, View};
use atomic_table::{Seat, Shared};

/// The words and slots of a ring, as threads share them.
pub type SharedRing<M> = Shared<u64, View, Key, RingRule<M>>;

/// A seat at a ring's table: a producer's or the consumer's. It has no bytes.
pub type RingSeat = Seat<u64, View>;

/// The index of a word of the trailer, from the trailer's start.
fn trailer_word(capacity: u32, word: usize) -> usize
    requires { word < 96 }
    ensures { result ≡ capacity / 8 + word }
{
    capacity as usize / 8 + word
}
