//! The calls that make and close a broadcast buffer.
ghost use Rattle.std.specs.Prelude.{◌≡◌, ℕ, ◌+◌, ◌/◌, ◌%◌, ◌<◌, ◌≤◌, [], slice_index, slice_get, vec_len, IfOk};
ghost use Rattle.std.specs.Slots.{slots_items, slots_len, IsFull};
ghost use Rattle.ring_layout.specs.Places.{is_board_capacity, max_position, IsBoardCapacity};
ghost use Rattle.ring_layout.specs.Refusals.{make_refusal_of, IsMadeUnless, IsRefusedAs};
ghost use Rattle.ring_board.specs.{Layout.intent_index, Layout.tail_index, Layout.latest_index, Runs.AreAllRuns};
ghost use Rattle.ring_board.specs.Board.{heard_by, transmitted};
ghost use Rattle.ring_board.specs.Seats.{capacity_of, start_of, IsNewAt, shares_of, IsTransmitterOf};
ghost use Rattle.ring_board.specs.Closing.{IsClosed, closed_words, closed_capacity, close_refusal_of, kept_open};

use crate::board::{Board, BoardCloseRefused, ClosedBoard, Transmitter};
use crate::fault::ReceiversOut;
use crate::shared::view::Shape;
use atomic_table::{Closed, Table};
use ring_layout::broadcast_buffer_descriptor::{
    LATEST_COUNTER_WORD, TAIL_COUNTER_WORD, TAIL_INTENT_COUNTER_WORD, TRAILER_WORDS,
};
use ring_layout::{ALL_SHARES, MakeFault, check_board, max_message};
use std::alloc::{AllocError, Global};

/// Copies the words of a table that was closed.
fn copy_words(closed: &Closed<(), Global>, words: &mut Vec<u64>)
    requires { IsFull closed.now.words × (slots_len closed.now.words ≡ vec_len words.old) }
    ensures len { vec_len words.new ≡ vec_len words.old }
    ensures words { (i : ℕ) → i < vec_len words.old
        → slice_index words.new.items i ≡ slice_index (slots_items closed.now.words) i }
{
    for i in 0..words.len() {
        words[i] = closed.word(i);
    }
}

impl Board {
    /// Makes a broadcast buffer that starts at position 0, and its transmitter, which holds all shares. The errors are
    /// those of `new_at`.
    pub fn new(alloc: Global, capacity: u32) -> Result<(Board, Transmitter), MakeFault>
        ensures transmitted { IfOk result (λ made. transmitted made.1 ≡ []) }
        ensures refused { IsMadeUnless (make_refusal_of (is_board_capacity capacity) capacity 0) result }
        ensures board { IfOk result (λ made. (capacity_of made.0 ≡ capacity) × (start_of made.0 ≡ 0)) }
        ensures transmitter { IfOk result (IsNewAt capacity 0) }
    {
        Board::new_at(alloc, capacity, 0)
    }

    /// Makes a broadcast buffer that starts at this position, and its transmitter, which holds all shares. These are
    /// the errors, in this order:
    /// - `BadCapacity` if the capacity is not a power of two from 256 to 2^24;
    /// - `BadStart` if the start is not a multiple of the capacity, or is above 2^62;
    /// - `OutOfMemory`.
    pub fn new_at(
        alloc: Global,
        capacity: u32,
        start: u64,
    ) -> Result<(Board, Transmitter), MakeFault>
        ensures transmitted { IfOk result (λ made. transmitted made.1 ≡ []) }
        ensures refused { IsMadeUnless (make_refusal_of (is_board_capacity capacity) capacity start) result }
        ensures board { IfOk result (λ made. (capacity_of made.0 ≡ capacity) × (start_of made.0 ≡ start)) }
        ensures transmitter { IfOk result (IsNewAt capacity start) }
    {
        check_board(capacity, start)?;
        Board::make(alloc, capacity, start).map_err(|_| MakeFault::OutOfMemory)
    }

    /// Makes a broadcast buffer of a valid capacity at a valid start.
    fn make(alloc: Global, capacity: u32, start: u64) -> Result<(Board, Transmitter), AllocError>
        requires capacity { IsBoardCapacity capacity }
        requires start { (start % capacity ≡ 0) × (start ≤ max_position) }
        ensures board { IfOk result (λ made. (capacity_of made.0 ≡ capacity) × (start_of made.0 ≡ start)) }
        ensures transmitter { IfOk result (IsNewAt capacity start) }
    {
        let trailer = capacity as usize / 8;
        let mut words = vec![in alloc; 0u64; trailer + TRAILER_WORDS]?;
        words[trailer + TAIL_INTENT_COUNTER_WORD] = start;
        words[trailer + TAIL_COUNTER_WORD] = start;
        words[trailer + LATEST_COUNTER_WORD] = start;
        let shape = Shape { capacity, start };
        let (table, seat) = Table::of_words(alloc, words.as_slice(), &shape)?;
        let board = Board {
            table,
            words,
            capacity,
        };
        let transmitter = Transmitter {
            seat,
            tail: start,
            shares: ALL_SHARES,
        };
        Ok((board, transmitter))
    }

    /// Returns the number of bytes of the buffer.
    pub fn capacity(&self) -> u32
        ensures { result ≡ capacity_of self.now }
    {
        self.capacity
    }

    /// Returns the number of bytes of the longest message, which is an eighth of the capacity.
    pub fn max_message(&self) -> u32
        ensures { result ≡ capacity_of self.now / 8 }
    {
        max_message(self.capacity)
    }

    /// Takes the broadcast buffer apart, after all receivers were taken back. Returns `ReceiversOut` with the number of
    /// shares that receivers have. The buffer and the transmitter then come back unchanged.
    pub fn close(self, transmitter: Transmitter) -> Result<ClosedBoard, BoardCloseRefused>
        requires { IsTransmitterOf self transmitter }
        ensures runs { IfOk result (λ _. AreAllRuns (transmitted transmitter) (heard_by transmitter)) }
        ensures closed { IfOk result (λ c. (closed_capacity c ≡ capacity_of self)
            × IsClosed (capacity_of self) (start_of self) (transmitted transmitter) (closed_words c)) }
        ensures refused { IsRefusedAs (kept_open self transmitter) (close_refusal_of (shares_of transmitter)) result }
    {
        if transmitter.shares != ALL_SHARES {
            return Err(BoardCloseRefused {
                reason: ReceiversOut {
                    receivers: ALL_SHARES - transmitter.shares,
                },
                board: self,
                transmitter,
            });
        }
        Ok(self.rescue(transmitter))
    }

    /// Takes the broadcast buffer apart with its transmitter alone, even if receivers have shares or were lost. The
    /// transmitter's list is whole, and so are the words that show it. The copies of the receivers that were joined are
    /// whole too. This call refuses nothing. The call takes the buffer by value. So no thread is still inside a call on
    /// the buffer.
    pub fn rescue(self, transmitter: Transmitter) -> ClosedBoard
        requires { IsTransmitterOf self transmitter }
        ensures runs { AreAllRuns (transmitted transmitter) (heard_by transmitter) }
        ensures closed { (closed_capacity result ≡ capacity_of self)
            × IsClosed (capacity_of self) (start_of self) (transmitted transmitter) (closed_words result) }
    {
        let Transmitter {
            seat,
            tail: _,
            shares: _,
        } = transmitter;
        let Board {
            table,
            mut words,
            capacity,
        } = self;
        let closed = table.close_with(seat);
        copy_words(&closed, &mut words);
        closed.free();
        ClosedBoard { words, capacity }
    }
}

impl ClosedBoard {
    /// Returns the intent, which is equal to the tail.
    pub fn intent(&self) -> u64
        ensures { result ≡ slice_index (closed_words self.now) (intent_index (closed_capacity self.now)) }
    {
        self.words[self.capacity as usize / 8 + TAIL_INTENT_COUNTER_WORD]
    }

    /// Returns the position, in bytes, at which the last transmission ended.
    pub fn tail(&self) -> u64
        ensures { result ≡ slice_index (closed_words self.now) (tail_index (closed_capacity self.now)) }
    {
        self.words[self.capacity as usize / 8 + TAIL_COUNTER_WORD]
    }

    /// Returns the place of the last record, or the start if there is none.
    pub fn latest(&self) -> u64
        ensures { result ≡ slice_index (closed_words self.now) (latest_index (closed_capacity self.now)) }
    {
        self.words[self.capacity as usize / 8 + LATEST_COUNTER_WORD]
    }

    /// Returns a word of the buffer or of the trailer.
    pub fn word(&self, index: usize) -> Option<u64>
        ensures { result ≡ slice_get (closed_words self.now) index }
    {
        self.words.get(index).copied()
    }
}
