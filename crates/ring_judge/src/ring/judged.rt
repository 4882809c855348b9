//! What the lines so far say of a ring.

ghost use Rattle.std.specs.Prelude.{◌≡◌, ◌+◌, ◌/◌, ◌^◌, ◌<◌, ◌≤◌, ◌↔◌, ℕ, IfOk, IsTrue, MatchOption, Some, None, All, length, take, drop, true};
ghost use Rattle.std.specs.Int.{is_power_of_two};
ghost use Rattle.ring_layout.specs.Places.{max_position};
ghost use Rattle.ring_judge.specs.Ring.{CanClaim, CanEnd, IsFull, fresh};
ghost use Rattle.ring_judge.specs.Judged.{AnswersLine, ClearsTo, IsJudged, state_of};
ghost use Rattle.ring_judge.specs.declared.ring.RingLine.TheVariants.{Claimed, Empty, Full, Got, Head, Positions, Rest, Word};

use crate::ring::claims::{end_of_claim, first_open, is_copy_of, move_head, skip_aborted};
use crate::ring::heads::{is_full_at, least_head, skip_behind};
use crate::ring::words::{Cursor, can_be_word, clear_to};
use crate::ring::{RingClaim, RingCopy, RingLine};
use ring_layout::{is_length, is_position, is_type_id, place_record};
use std::alloc::{AllocError, Global};

/// A ring whose lines are judged one after another.
#[derive(Drop)]
pub struct Judged {
    pub capacity: u32,
    pub start: u64,
    /// All claims so far.
    pub claims: Vec<RingClaim>,
    /// How many of them the consumer passed.
    pub passed: usize,
    pub head: u64,
    pub tail: u64,
    /// The place of the first open claim.
    pub blocked_at: Option<u64>,
    /// The consumer can pass this many claims, but a head before that point is too far back.
    pub low: usize,
    /// The least head that had room for the first claim, for the first two, and so on.
    pub heads: Vec<Option<u64>>,
    /// The position up to which the words of the buffer were read.
    pub read: u64,
    /// The claims that the words from `read` on are of.
    pub cursor: Cursor,
}

impl Judged {
    /// A ring in which nothing was claimed yet.
    pub fn new(alloc: Global, capacity: u32, start: u64) -> Self
        requires power { IsTrue (is_power_of_two capacity) }
        requires most { capacity ≤ 2 ^ 30 }
        requires start { start ≤ max_position }
        ensures judged { IsJudged result }
        ensures capacity { result.capacity ≡ capacity }
        ensures state { state_of result ≡ fresh start }
    {
        Judged {
            capacity,
            start,
            claims: Vec::new(alloc),
            passed: 0,
            head: start,
            tail: start,
            blocked_at: None,
            low: 0,
            heads: Vec::new(alloc),
            read: start,
            cursor: Cursor {
                claim: 0,
                end: start,
            },
        }
    }

    /// Tests whether the ring allows the line. The ring is then in the state after the line.
    pub fn answer(&mut self, line: &RingLine) -> Result<bool, AllocError>
        requires { IsJudged self.old }
        ensures { IfOk result (λ answer. AnswersLine self.old self.new line.now answer) }
    {
        match line {
            RingLine::Claimed(claim) => self.claim(claim),
            RingLine::Full(producer, length) => Ok(self.refuses(*producer, *length)),
            RingLine::Got(copy) => Ok(self.show(copy)),
            RingLine::Head(head) => Ok(self.move_head(*head)),
            RingLine::Positions(head, tail) => Ok(self.end(*head, *tail)),
            RingLine::Word(at, value) => Ok(self.read_word(*at, *value)),
            RingLine::Rest => Ok(self.read_rest()),
            RingLine::Empty => Ok(self.shows_nothing()),
            RingLine::Blank => Ok(true),
        }
    }

    /// Tests whether the claim can be the next one. It is then added.
    fn claim(&mut self, claim: &RingClaim) -> Result<bool, AllocError>
        requires { IsJudged self.old }
        ensures { IfOk result (λ answer. AnswersLine self.old self.new (Claimed claim.now) answer) }
    {
        if !self.can_claim(claim) {
            return Ok(false);
        }
        self.claims.push(*claim)?;
        self.tail = end_of_claim(claim);
        self.blocked_at = first_open(self.blocked_at, claim);
        self.low = skip_behind(&self.claims, self.low, self.capacity, self.tail);
        self.heads.push(least_head(&self.claims, self.low, self.start, self.capacity, self.tail))?;
        self.read = self.head;
        self.cursor = Cursor {
            claim: self.passed,
            end: self.head,
        };
        Ok(true)
    }

    /// Tests whether the claim can be the next one.
    fn can_claim(&self, claim: &RingClaim) -> bool
        requires { IsJudged self.now }
        ensures { IsTrue result ↔ CanClaim self.now.capacity (state_of self.now) claim.now }
    {
        let length = claim.length as usize;
        if !is_type_id(claim.type_id) || !is_length(self.capacity, length) {
            return false;
        }
        let next = place_record(self.capacity, self.tail, length);
        claim.place == next.place && is_position(next.end) && self.can_end(next.end)
    }

    /// Tests whether a claim can end here: the head never passes an open claim.
    fn can_end(&self, end: u64) -> bool
        requires { IsJudged self.now }
        ensures { IsTrue result ↔ CanEnd self.now.capacity (state_of self.now) end }
    {
        match self.blocked_at {
            Some(place) => end <= place + u64::from(self.capacity),
            None => true,
        }
    }

    /// Tests whether the producer can be refused a message of this length for lack of room.
    fn refuses(&self, producer: u16, length: u32) -> bool
        requires { IsJudged self.now }
        ensures { AnswersLine self.now self.now (Full producer length) result }
    {
        let len = length as usize;
        if !is_length(self.capacity, len) {
            return false;
        }
        let mut count = self.claims.len();
        while count > 0 && self.claims[count - 1].producer != producer {
            if self.is_full(count, len) {
                return true;
            }
            count -= 1;
        }
        self.is_full(count, len)
    }

    /// Tests whether the ring can have been full for a message of this length when this many claims were made.
    fn is_full(&self, count: usize, len: usize) -> bool
        requires judged { IsJudged self.now }
        requires short { len ≤ self.now.capacity / 8 }
        requires within { count ≤ length self.now.claims.items }
        ensures { IsTrue result ↔ IsFull self.now.capacity self.now.start (take count self.now.claims.items) len }
    {
        if count == 0 {
            return is_full_at(self.capacity, self.start, self.start, len);
        }
        match self.heads[count - 1] {
            Some(head) => is_full_at(
                self.capacity,
                end_of_claim(&self.claims[count - 1]),
                head,
                len,
            ),
            None => false,
        }
    }

    /// Tests whether the consumer can be shown this message next. The consumer then passed its claim.
    fn show(&mut self, copy: &RingCopy) -> bool
        requires { IsJudged self.old }
        ensures { AnswersLine self.old self.new (Got copy.now) result }
    {
        let next = skip_aborted(&self.claims, self.passed);
        let Some(claim) = self.claims.get(next) else {
            return false;
        };
        if !is_copy_of(claim, copy) {
            return false;
        }
        self.head = end_of_claim(claim);
        self.passed = next + 1;
        self.read = self.head;
        self.cursor = Cursor {
            claim: self.passed,
            end: self.head,
        };
        true
    }

    /// Tests whether the head can be at this position now. The consumer then passed the claims before this position.
    fn move_head(&mut self, head: u64) -> bool
        requires { IsJudged self.old }
        ensures { AnswersLine self.old self.new (Head head) result }
    {
        match move_head(&self.claims, self.passed, self.head, head) {
            Some(next) => {
                self.passed = next;
                self.head = head;
                self.read = head;
                self.cursor = Cursor {
                    claim: next,
                    end: head,
                };
                true
            }
            None => false,
        }
    }

    /// Tests whether the head and the tail can be at these positions in the end.
    fn end(&mut self, head: u64, tail: u64) -> bool
        requires { IsJudged self.old }
        ensures { AnswersLine self.old self.new (Positions head tail) result }
    {
        tail == self.tail && self.move_head(head) && tail <= head + u64::from(self.capacity)
    }

    /// Tests whether the consumer can find nothing.
    fn shows_nothing(&self) -> bool
        requires { IsJudged self.now }
        ensures { AnswersLine self.now self.now Empty result }
    {
        let next = skip_aborted(&self.claims, self.passed);
        match self.claims.get(next) {
            Some(claim) => claim.fate.is_open(),
            None => true,
        }
    }

    /// Tests whether the word at this position can have this value, and the words before it that were not read 0.
    fn read_word(&mut self, at: u64, value: u64) -> bool
        requires { IsJudged self.old }
        ensures { AnswersLine self.old self.new (Word at value) result }
    {
        if at % 8 != 0 || at >= self.head + u64::from(self.capacity) || !self.clear_to(at) {
            return false;
        }
        if !can_be_word(&self.claims, self.capacity, self.cursor, at, value) {
            return false;
        }
        self.read = at + 8;
        true
    }

    /// Tests whether all words of the buffer that were not read can be 0.
    fn read_rest(&mut self) -> bool
        requires { IsJudged self.old }
        ensures { AnswersLine self.old self.new Rest result }
    {
        self.clear_to(self.head + u64::from(self.capacity))
    }

    /// Tests whether the words up to this position that were not read can be 0. The cursor then is at this position.
    fn clear_to(&mut self, to: u64) -> bool
        requires { IsJudged self.old }
        ensures { ClearsTo self.old self.new to result }
    {
        let end = self.head + u64::from(self.capacity);
        if to < self.read || to > end || self.tail > end {
            return false;
        }
        match clear_to(&self.claims, self.capacity, self.cursor, self.read, to) {
            Some(cursor) => {
                self.cursor = cursor;
                self.read = to;
                true
            }
            None => false,
        }
    }
}
