//! The records of a broadcast buffer.
ghost use Rattle.std.specs.Prelude.{◌≡◌, length};
ghost use Rattle.ring_layout.specs.Places.{IsBoardCapacity};
ghost use Rattle.ring_board.specs.Layout.{board_words};

pub(crate) mod search;

use crate::board_finding::BoardFinding;
use crate::board_record::BoardRecord;
use crate::body::Body;
use crate::buffer::{Buffer, lies_inside};
use crate::listing::Listing;
use ring_layout::broadcast_buffer_descriptor::{
    LATEST_COUNTER_WORD, MAX_CAPACITY, TAIL_COUNTER_WORD, TAIL_INTENT_COUNTER_WORD, TRAILER_WORDS,
};
use ring_layout::record_descriptor::{HEADER_LENGTH, PADDING_MSG_TYPE_ID};
use ring_layout::{align8, byte_index, is_board_capacity, unpack_header, word_index};

/// The words of a broadcast buffer, which are those of its buffer and those of its trailer.
#[derive(Clone, Copy, Debug)]
pub struct BoardSnapshot<'a> {
    capacity: u32,
    words: &'a [u64],
    ghost lawful: { IsBoardCapacity capacity },
    ghost whole: { length words.now ≡ board_words capacity },
}

/// An iterator over the records of a broadcast buffer from a position on, in order. The iterator ends at the tail, and
/// after a finding.
pub type BoardRecords<'a> = Listing<BoardSnapshot<'a>>;

impl<'a> BoardSnapshot<'a> {
    ghost use Rattle.std.specs.Prelude.{◌≡◌, ◌≢◌, ℕ, ◌+◌, ◌-◌, ◌*◌, ◌/◌, ◌%◌, ◌^◌, ◌<◌, ◌≤◌, List, length, slice_index, IfOk, IfErr, IsOkAnd};
    ghost use Rattle.ring_layout.specs.Places.{IsBoardCapacity, rounded};
    ghost use Rattle.ring_board.specs.{declared.shared.view.Record.Record, Refusals.IsRefusedBy};
    ghost use Rattle.ring_board.specs.Layout.{board_words, intent_index, tail_index, latest_index};
    ghost use Rattle.ring_snapshot.specs.declared.board_finding.BoardFinding.TheVariants.{BadSize};
    ghost use Rattle.ring_snapshot.specs.BoardRecords.{is_length, entry_at, intent_in, tail_in, latest_in, records_left, listed_from, first_whole, is_lap_whole, positions_finding, from_finding, HaveTransmitted, BeginsAt, lap_of, transmitted_from};

    /// Takes the words of a broadcast buffer. Returns `BadSize` if no broadcast buffer has this many words.
    pub fn new(words: &'a [u64]) -> Result<Self, BoardFinding>
        ensures board { IfOk result (λ b. (b.words.now ≡ words.now) × IsBoardCapacity b.capacity
            × (length words.now ≡ board_words b.capacity)) }
        ensures refused { IfErr result (λ f. (f ≡ BadSize (length words.now))
            × ((C : ℕ) → IsBoardCapacity C → length words.now ≢ board_words C)) }
    {
        let refused = BoardFinding::BadSize { words: words.len() };
        if words.len() < TRAILER_WORDS || words.len() - TRAILER_WORDS > MAX_CAPACITY as usize / 8 {
            return Err(refused);
        }
        let capacity = (words.len() - TRAILER_WORDS) as u32 * 8;
        if !is_board_capacity(capacity) {
            return Err(refused);
        }
        Ok(BoardSnapshot { capacity, words })
    }

    /// Returns the number of bytes of the buffer.
    pub fn capacity(&self) -> u32
        ensures capacity { result ≡ self.now.capacity }
        ensures lawful { IsBoardCapacity result }
    {
        self.capacity
    }

    /// Returns the end of the transmission that is being made.
    pub fn intent(&self) -> u64
        ensures { result ≡ slice_index self.now.words.now (intent_index self.now.capacity) }
    {
        self.words[self.capacity as usize / 8 + TAIL_INTENT_COUNTER_WORD]
    }

    /// Returns the end of the last transmission.
    pub fn tail(&self) -> u64
        ensures { result ≡ slice_index self.now.words.now (tail_index self.now.capacity) }
    {
        self.words[self.capacity as usize / 8 + TAIL_COUNTER_WORD]
    }

    /// Returns the place of the last record.
    pub fn latest(&self) -> u64
        ensures { result ≡ slice_index self.now.words.now (latest_index self.now.capacity) }
    {
        self.words[self.capacity as usize / 8 + LATEST_COUNTER_WORD]
    }

    /// Tests whether the current lap is whole, so that the intent has overwritten none of it.
    pub fn is_lap_whole(&self) -> bool
        ensures { result ≡ is_lap_whole self.now.capacity (intent_in self.now) (latest_in self.now) }
    {
        let latest = self.latest();
        let lap = latest - byte_index(self.capacity, latest);
        self.intent().saturating_sub(lap) <= u64::from(self.capacity)
    }

    /// Iterates over the records of the current lap. If the intent has begun to overwrite the first of them, iterates
    /// over the last one alone. Returns one of these findings, in this order, for positions that make no sense:
    /// `UnalignedPosition`, `TailBeforeLatest`, `IntentBeforeTail`, `TailTooFar`, `IntentTooFar`.
    ///
    /// The iterator does not go back into the lap before. Memory does not say at which place the first whole record of
    /// that lap begins, and a message may look like a header. `records_from` lists these records from a known start.
    pub fn records(&self) -> Result<BoardRecords<'a>, BoardFinding>
        ensures refused { IsRefusedBy (positions_finding self.now.capacity (intent_in self.now) (tail_in self.now)
            (latest_in self.now)) result }
        ensures listed { IfOk result (λ r. records_left r
            ≡ listed_from self.now (first_whole self.now.capacity (intent_in self.now) (latest_in self.now))) }
        ensures exact { (sent : List Record) → HaveTransmitted self.now.capacity self.now.words.now sent
            → IsOkAnd result (λ r. records_left r
            ≡ transmitted_from self.now sent (lap_of self.now.capacity (latest_in self.now))) }
    {
        let (intent, tail, latest) = (self.intent(), self.tail(), self.latest());
        self.check_positions(intent, tail, latest)?;
        let lap = latest - byte_index(self.capacity, latest);
        let whole = self.is_lap_whole();
        let first = if whole { lap } else { latest };
        Ok(Listing::new(*self, first, tail))
    }

    /// Iterates over the records from a position on. This must be the start of a record, for example the place of a
    /// receiver. The findings are those of `records`, and then `OutsideOfRecords` if no record begins there or if what
    /// was there is overwritten.
    pub fn records_from(&self, position: u64) -> Result<BoardRecords<'a>, BoardFinding>
        ensures refused { IsRefusedBy (from_finding self.now.capacity (intent_in self.now) (tail_in self.now)
            (latest_in self.now) position) result }
        ensures listed { IfOk result (λ r. records_left r ≡ listed_from self.now position) }
        ensures exact { (sent : List Record) → HaveTransmitted self.now.capacity self.now.words.now sent
            → BeginsAt sent (tail_in self.now) position → tail_in self.now ≤ position + self.now.capacity
            → IsOkAnd result (λ r. records_left r ≡ transmitted_from self.now sent position) }
    {
        let (intent, tail, latest) = (self.intent(), self.tail(), self.latest());
        self.check_positions(intent, tail, latest)?;
        let begins = position <= latest || position == tail;
        if position % 8 != 0 || !begins || intent - position > u64::from(self.capacity) {
            return Err(BoardFinding::OutsideOfRecords { position });
        }
        Ok(Listing::new(*self, position, tail))
    }

    /// Tests the positions of the trailer.
    fn check_positions(&self, intent: u64, tail: u64, latest: u64) -> Result<(), BoardFinding>
        ensures { IsRefusedBy (positions_finding self.now.capacity intent tail latest) result }
    {
        if intent % 8 != 0 || tail % 8 != 0 || latest % 8 != 0 {
            return Err(BoardFinding::UnalignedPosition {
                intent,
                tail,
                latest,
            });
        }
        if tail < latest {
            return Err(BoardFinding::TailBeforeLatest { tail, latest });
        }
        if intent < tail {
            return Err(BoardFinding::IntentBeforeTail { intent, tail });
        }
        let room = u64::from(self.capacity) - byte_index(self.capacity, latest);
        if tail - latest > room {
            return Err(BoardFinding::TailTooFar { tail, latest });
        }
        if intent - latest > u64::from(self.capacity) {
            return Err(BoardFinding::IntentTooFar { intent, latest });
        }
        Ok(())
    }
    /// Tests whether a record of this length, header included, may be at a position.
    fn is_length(&self, latest: u64, tail: u64, at: u64, length: u32) -> bool
        requires { at < tail }
        ensures { result ≡ is_length self.now.capacity latest tail at length }
    {
        if !lies_inside(self.capacity, at, length) {
            return false;
        }
        let span = align8(u64::from(length));
        if at < latest {
            span <= latest - at
        } else {
            at == latest && span == tail - at
        }
    }
    /// Returns what is at a position before the tail, for this intent and this place of the last record.
    fn entry_with(
        &self,
        intent: u64,
        latest: u64,
        tail: u64,
        at: u64,
    ) -> Result<BoardRecord<'a>, BoardFinding>
        requires { at < tail }
        ensures entry { result ≡ entry_at self.now.capacity self.now.words.now intent latest tail at }
        ensures inside { IfOk result (λ r. at + rounded r.length < 2 ^ 64) }
    {
        let index = byte_index(self.capacity, at) as u32;
        let (len, type_id) = unpack_header(self.words[word_index(self.capacity, at)]);
        let length = len.unsigned_abs();
        if len < 1 || !self.is_length(latest, tail, at, length) {
            return Err(BoardFinding::BadLength { index, length: len });
        }
        let is_padding = type_id == PADDING_MSG_TYPE_ID;
        if is_padding && (at >= latest || index + length != self.capacity) {
            return Err(BoardFinding::BadLength { index, length: len });
        }
        if !is_padding && type_id < 1 {
            return Err(BoardFinding::BadType { index, type_id });
        }
        let bytes = if is_padding {
            0
        } else {
            length as usize - HEADER_LENGTH
        };
        Ok(BoardRecord {
            place: at,
            index,
            is_padding,
            is_valid: intent.saturating_sub(at) < u64::from(self.capacity),
            type_id,
            length,
            body: Body::new(self.words, index as usize + HEADER_LENGTH, bytes),
        })
    }
}

impl<'a> Buffer for BoardSnapshot<'a> {
    ghost use Rattle.ring_snapshot.specs.BoardRecords.{entry_at, intent_in, latest_in};

    type Record = BoardRecord<'a>;

    type Finding = BoardFinding;

    ghost size = { λ r. r.length };

    ghost entry = { λ b. entry_at b.capacity b.words.now (intent_in b) (latest_in b) };

    fn entry_at(&self, tail: u64, at: u64) -> Result<BoardRecord<'a>, BoardFinding> {
        self.entry_with(self.intent(), self.latest(), tail, at)
    }

    fn length_of(own: &BoardRecord<'a>) -> u32 {
        own.length
    }
}
