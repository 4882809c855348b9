//! What a conductor shares with the ends that it gives, and what such an end has of it.
ghost use Rattle.std.specs.Prelude.{◌≡◌};
ghost use Rattle.ring_ends.specs.Lending.{board_in, values_in};

use ring_board::Board;
use ring_counters::CounterValues;
use ring_rings::PlainManyToOneRing;
use std::sync::Arc;

/// What a conductor shares with its clients, receivers and readers: the ring of its commands, the broadcast buffer of
/// its replies, and the values of its counters.
#[derive(Drop)]
pub struct Shared {
    pub ring: PlainManyToOneRing,
    pub board: Board,
    pub values: CounterValues,
}

/// The source of a receiver's broadcast buffer, or of a reader's values.
#[derive(Drop)]
pub enum Lender<T> {
    /// Only ends of the broadcast buffer, or of the counters, have it.
    Own(Arc<T>),
    /// It is a conductor's.
    Lent(Arc<Shared>),
}

impl Lender<Board> {
    /// Returns the broadcast buffer.
    pub fn board(&self) -> &Board
        ensures { result.now ≡ board_in self.now }
    {
        match self {
            Lender::Own(board) => board,
            Lender::Lent(shared) => &shared.board,
        }
    }
}

impl Lender<CounterValues> {
    /// Returns the values.
    pub fn values(&self) -> &CounterValues
        ensures { result.now ≡ values_in self.now }
    {
        match self {
            Lender::Own(values) => values,
            Lender::Lent(shared) => &shared.values,
        }
    }
}
