//! The records of a ring.
ghost use Rattle.std.specs.Prelude.{◌≡◌, length};
ghost use Rattle.ring_layout.specs.{Places.IsCapacity, Layout.ring_words};

pub(crate) mod mark;
pub(crate) mod plain;
pub(crate) mod search;

use crate::body::Body;
use crate::buffer::{Buffer, lies_inside};
use crate::listing::Listing;
use crate::record::{Record, RecordState};
use crate::ring_finding::RingFinding;
use ring_layout::record_descriptor::{HEADER_LENGTH, PADDING_MSG_TYPE_ID};
use ring_layout::ring_buffer_descriptor::{
    CONSUMER_HEARTBEAT_WORD, CORRELATION_COUNTER_WORD, HEAD_CACHE_POSITION_WORD,
    HEAD_POSITION_WORD, MAX_CAPACITY, TAIL_POSITION_WORD, TRAILER_WORDS,
};
use ring_layout::{align8, byte_index, is_capacity, unpack_header, word_index};

/// The words of a ring, which are those of its buffer and those of its trailer.
#[derive(Clone, Copy, Debug)]
pub struct RingSnapshot<'a> {
    capacity: u32,
    words: &'a [u64],
    ghost lawful: { IsCapacity capacity },
    ghost whole: { length words.now ≡ ring_words capacity },
}

/// An iterator over the records of a ring from a position on, in order. The iterator ends at the tail, and after a
/// finding.
pub type Records<'a> = Listing<RingSnapshot<'a>>;

impl<'a> RingSnapshot<'a> {
    ghost use Rattle.std.specs.Prelude.{◌≡◌, ◌≢◌, ℕ, ◌+◌, ◌-◌, ◌*◌, ◌/◌, ◌%◌, ◌^◌, ◌<◌, ◌≤◌, ◌==◌, if◌then◌else◌, List, [], length, slice_index, IfOk, IfErr};
    ghost use Rattle.ring_layout.specs.{declared.message.Claim.Claim, Places.IsCapacity, Places.rounded};
    ghost use Rattle.ring_layout.specs.Layout.{tail_index, head_cache_index, head_index, correlation_index, heartbeat_index, ring_words};
    ghost use Rattle.ring_board.specs.Refusals.{IsRefusedBy};
    ghost use Rattle.ring_snapshot.specs.declared.record.RecordState.TheVariants.{Aborted, AbortedOrPadding};
    ghost use Rattle.ring_snapshot.specs.{declared.ring_finding.RingFinding.TheVariants.BadSize, Listing.ok_records};
    ghost use Rattle.ring_snapshot.specs.RingRecords.{is_length, entry_at, records_left, listed_from, records_of, Lie, head_in, tail_in, positions_finding, from_finding};

    /// Takes the words of a ring. Returns `BadSize` if no ring has this many words.
    pub fn new(words: &'a [u64]) -> Result<Self, RingFinding>
        ensures ring { IfOk result (λ r. (r.words.now ≡ words.now) × IsCapacity r.capacity
            × (length words.now ≡ ring_words r.capacity)) }
        ensures refused { IfErr result (λ f. (f ≡ BadSize (length words.now))
            × ((C : ℕ) → IsCapacity C → length words.now ≢ ring_words C)) }
    {
        let refused = RingFinding::BadSize { words: words.len() };
        if words.len() < TRAILER_WORDS || words.len() - TRAILER_WORDS > MAX_CAPACITY as usize / 8 {
            return Err(refused);
        }
        let capacity = (words.len() - TRAILER_WORDS) as u32 * 8;
        if !is_capacity(capacity) {
            return Err(refused);
        }
        Ok(RingSnapshot { capacity, words })
    }

    /// Returns the number of bytes of the buffer.
    pub fn capacity(&self) -> u32
        ensures capacity { result ≡ self.now.capacity }
        ensures lawful { IsCapacity result }
    {
        self.capacity
    }

    /// Returns the position up to which messages were taken.
    pub fn head(&self) -> u64
        ensures { result ≡ slice_index self.now.words.now (head_index self.now.capacity) }
    {
        self.words[self.capacity as usize / 8 + HEAD_POSITION_WORD]
    }

    /// Returns the head as the producers last saw it.
    pub fn head_cache(&self) -> u64
        ensures { result ≡ slice_index self.now.words.now (head_cache_index self.now.capacity) }
    {
        self.words[self.capacity as usize / 8 + HEAD_CACHE_POSITION_WORD]
    }

    /// Returns the position up to which room is claimed.
    pub fn tail(&self) -> u64
        ensures { result ≡ slice_index self.now.words.now (tail_index self.now.capacity) }
    {
        self.words[self.capacity as usize / 8 + TAIL_POSITION_WORD]
    }

    /// Returns the next correlation id.
    pub fn correlation(&self) -> u64
        ensures { result ≡ slice_index self.now.words.now (correlation_index self.now.capacity) }
    {
        self.words[self.capacity as usize / 8 + CORRELATION_COUNTER_WORD]
    }

    /// Returns the heartbeat of the consumer.
    pub fn heartbeat(&self) -> u64
        ensures { result ≡ slice_index self.now.words.now (heartbeat_index self.now.capacity) }
    {
        self.words[self.capacity as usize / 8 + CONSUMER_HEARTBEAT_WORD]
    }

    /// Iterates over the records from the head on. Returns one of these findings, in this order, for positions that
    /// make no sense: `UnalignedPosition`, `TailBeforeHead`, `TailTooFar`.
    ///
    /// For the words of a ring that has a history, the iterator returns exactly the claims of the history, in order.
    /// Each claim comes with its place and the padding before it. For any words it returns one record after another, up
    /// to the tail or a finding.
    pub fn records(&self) -> Result<Records<'a>, RingFinding>
        ensures refused { IsRefusedBy (positions_finding self.now.capacity (head_in self.now) (tail_in self.now))
            result }
        ensures listed { IfOk result (λ r. records_left r ≡ listed_from self.now (head_in self.now)) }
        ensures exact { (h : List Claim) → Lie self.now.capacity self.now.words.now (tail_in self.now)
            (head_in self.now) h
            → IfOk result (λ r. records_left r ≡ ok_records (records_of self.now.capacity (head_in self.now) h)) }
    {
        self.records_from(self.head())
    }

    /// Iterates over the records from a position on. This must be the start of a record. The findings are those of
    /// `records`, and then `OutsideOfRecords` if the position is not between the head and the tail or is not a multiple
    /// of 8.
    pub fn records_from(&self, position: u64) -> Result<Records<'a>, RingFinding>
        ensures refused { IsRefusedBy (from_finding self.now.capacity (head_in self.now) (tail_in self.now) position)
            result }
        ensures listed { IfOk result (λ r. records_left r ≡ listed_from self.now position) }
        ensures exact { (h : List Claim) → Lie self.now.capacity self.now.words.now (tail_in self.now) position h
            → IfOk result (λ r. records_left r ≡ ok_records (records_of self.now.capacity position h)) }
    {
        let (head, tail) = (self.head(), self.tail());
        self.check_positions(head, tail)?;
        if position % 8 != 0 || position < head || position > tail {
            return Err(RingFinding::OutsideOfRecords { position });
        }
        Ok(Listing::new(*self, position, tail))
    }

    /// Tests the positions of the head and the tail.
    fn check_positions(&self, head: u64, tail: u64) -> Result<(), RingFinding>
        ensures { IsRefusedBy (positions_finding self.now.capacity head tail) result }
    {
        if head % 8 != 0 || tail % 8 != 0 {
            return Err(RingFinding::UnalignedPosition { head, tail });
        }
        if tail < head {
            return Err(RingFinding::TailBeforeHead { head, tail });
        }
        if tail - head > u64::from(self.capacity) {
            return Err(RingFinding::TailTooFar { head, tail });
        }
        Ok(())
    }

    /// Tests whether a record of this length, header included, may be at a position.
    fn is_length(&self, tail: u64, at: u64, length: u32) -> bool
        requires { at ≤ tail }
        ensures { result ≡ is_length self.now.capacity tail at length }
    {
        lies_inside(self.capacity, at, length) && align8(u64::from(length)) <= tail - at
    }

    /// Returns the state of a passed record, which may be padding if it ends with the buffer.
    fn passed_state(&self, at: u64, length: u32) -> RecordState
        requires { length ≤ 2 ^ 25 }
        ensures { result
            ≡ (if at % self.now.capacity + length == self.now.capacity then AbortedOrPadding else Aborted) }
    {
        if byte_index(self.capacity, at) + u64::from(length) == u64::from(self.capacity) {
            RecordState::AbortedOrPadding
        } else {
            RecordState::Aborted
        }
    }

    /// Returns a record whose message is not shown.
    fn without_body(&self, at: u64, state: RecordState, type_id: i32, length: u32) -> Record<'a>
        ensures { result ≡ record {
          place = at;
          index = at % self.now.capacity;
          state = state;
          type_id =
              type_id;
          length = length;
          body = [];
        } }
    {
        Record {
            place: at,
            index: byte_index(self.capacity, at) as u32,
            state,
            type_id,
            length,
            body: Body::new(self.words, 0, 0),
        }
    }
}

impl<'a> Buffer for RingSnapshot<'a> {
    ghost use Rattle.ring_snapshot.specs.RingRecords.{entry_at};

    type Record = Record<'a>;

    type Finding = RingFinding;

    ghost size = { λ r. r.length };

    ghost entry = { λ ring. entry_at ring.capacity ring.words.now };

    fn entry_at(&self, tail: u64, at: u64) -> Result<Record<'a>, RingFinding> {
        let index = byte_index(self.capacity, at) as u32;
        let word = self.words[word_index(self.capacity, at)];
        if word == 0 {
            return Ok(self.without_body(at, RecordState::Unstored, 0, (tail - at) as u32));
        }
        let (len, type_id) = unpack_header(word);
        let length = len.unsigned_abs();
        if !self.is_length(tail, at, length) {
            return Err(RingFinding::BadLength { index, length: len });
        }
        if len > 0 && type_id == PADDING_MSG_TYPE_ID {
            return Ok(self.without_body(at, self.passed_state(at, length), type_id, length));
        }
        if type_id < 1 {
            return Err(RingFinding::BadType { index, type_id });
        }
        let state = if len < 0 {
            RecordState::Open
        } else {
            RecordState::Committed
        };
        Ok(Record {
            place: at,
            index,
            state,
            type_id,
            length,
            body: Body::new(
                self.words,
                index as usize + HEADER_LENGTH,
                length as usize - HEADER_LENGTH,
            ),
        })
    }

    fn length_of(own: &Record<'a>) -> u32 {
        own.length
    }
}
