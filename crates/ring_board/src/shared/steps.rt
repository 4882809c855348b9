//! One small function for each kind of step of receivers and of seats. Each step is one load or one store of one word.
pub(crate) mod receiver;
pub(crate) mod seats;

ghost use Rattle.std.specs.Prelude.{◌≡◌, ◌+◌, ◌/◌, ◌<◌};
ghost use Rattle.ring_layout.specs.Places.{index};

use crate::board::Board;
use crate::shared::rule::BoardRule;
use crate::shared::view::{Shape, View};
use atomic_table::{Seat, Table};
use ring_layout::word_index;
use std::alloc::Global;

/// The words of a broadcast buffer, as threads share them.
pub type BoardTable = Table<(), View, Shape, BoardRule, Global>;

/// A seat at the table, of the transmitter or of a receiver. A seat has no bytes.
pub type BoardSeat = Seat<(), View>;

impl Board {
    /// Returns the index of the word at a position.
    pub(crate) fn index(&self, position: u64) -> usize
        ensures { (result ≡ index self.now.capacity position) × (result < self.now.capacity / 8) }
    {
        word_index(self.capacity, position)
    }

    /// Returns the index of a word of the trailer.
    pub(crate) fn trailer_index(&self, word: usize) -> usize
        requires { word < 16 }
        ensures lies { result ≡ self.now.table.shared.key.capacity / 8 + word }
        ensures inside { result < self.now.table.shared.table_id.words }
    {
        self.capacity as usize / 8 + word
    }
}
