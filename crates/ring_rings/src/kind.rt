//! The kinds of rings. The kind says how a producer moves the tail.
ghost use Rattle.std.specs.Prelude.{◌≡◌, ◌%◌, ◌<◌, ◌≤◌, Bool, false, true, IfOk, MatchResult, None, OnErr};
ghost use Rattle.ring_layout.specs.{Places.max_position, Refusals.all_shares};
ghost use Rattle.ring_table.specs.{Seats.IsSameSeat, Seats.IsSeatOf, declared.view.View.View};
ghost use Rattle.ring_rings.specs.Claiming.{request_refusal_of, RefusesTry};
ghost use Rattle.ring_rings.specs.Making.{KnowsTail, MovesBehind};

use crate::fault::TryFault;
use crate::producer::room::{admit, find_room, test_request};
use crate::ring::{ManyToOne, OneToOne};
use ring_layout::Admission;
use ring_table::{Mode, RingSeat, SharedRing, Wanted, load_tail, move_tail, store_tail};

/// A kind of ring: `OneToOne` or `ManyToOne`.
pub trait Kind: Sized {
    /// States that rings of this kind may have many producers. Otherwise a producer holds all shares when it claims,
    /// and knows the tail.
    ghost many: { Bool };

    /// Makes one try to move the tail past a message. The only producer stores the tail, since its own tail is that of
    /// the ring. One of several producers exchanges a tail that it loaded. The claim has no header yet. The refusals
    /// are those of `try_claim`.
    fn try_move<M: Mode>(
        words: &SharedRing<M>,
        seat: &mut RingSeat,
        capacity: u32,
        own_tail: u64,
        wanted: Wanted,
    ) -> Result<Admission, TryFault>
        requires seat { IsSeatOf words.now.table_id words.now.key capacity seat.old }
        requires share { 0 < seat.old.me.0.producer.shares }
        requires sole { many ≡ false → seat.old.me.0.producer.shares ≡ all_shares }
        requires own { seat.old.me.0.producer.shares ≡ all_shares → seat.old.me.0.producer.seen_tail ≡ own_tail }
        requires position { (own_tail % 8 ≡ 0) × (own_tail ≤ max_position) }
        ensures seat { IsSameSeat seat.old seat.new }
        ensures told { MatchResult result
            (λ a. MovesBehind many capacity wanted.type_id wanted.len seat.old.me.0 a seat.new.me.0)
            (λ fault. RefusesTry many capacity wanted.type_id wanted.len seat.old.me.0 fault seat.new.me.0) }
        ensures own { OnErr result
            (seat.old.me.0.producer.shares ≡ all_shares
            → seat.new.me.0.producer.seen_tail ≡ seat.old.me.0.producer.seen_tail) };

    /// Returns the tail that a claim goes by. The only producer knows it, and one of several producers loads it.
    fn learn_tail<M: Mode>(
        words: &SharedRing<M>,
        seat: &mut RingSeat,
        capacity: u32,
        own_tail: u64,
    ) -> u64
        requires seat { IsSeatOf words.now.table_id words.now.key capacity seat.old }
        requires sole { many ≡ false → seat.old.me.0.producer.shares ≡ all_shares }
        requires own { seat.old.me.0.producer.shares ≡ all_shares → seat.old.me.0.producer.seen_tail ≡ own_tail }
        requires position { (own_tail % 8 ≡ 0) × (own_tail ≤ max_position) }
        ensures seat { IsSameSeat seat.old seat.new }
        ensures knows { KnowsTail many capacity seat.old.me.0 result seat.new.me.0 }
        ensures position { (result % 8 ≡ 0) × (result ≤ max_position) };

    /// Makes one try to move this tail past a message, of which the type id and the length were tested.
    fn move_from<M: Mode>(
        words: &SharedRing<M>,
        seat: &mut RingSeat,
        capacity: u32,
        tail: u64,
        wanted: Wanted,
    ) -> Result<Admission, TryFault>
        requires seat { IsSeatOf words.now.table_id words.now.key capacity seat.old }
        requires share { 0 < seat.old.me.0.producer.shares }
        requires sole { many ≡ false → seat.old.me.0.producer.shares ≡ all_shares }
        requires request { request_refusal_of capacity wanted.type_id wanted.len ≡ None }
        requires known { (v : View) × KnowsTail many capacity v tail seat.old.me.0 }
        requires position { (tail % 8 ≡ 0) × (tail ≤ max_position) }
        ensures seat { IsSameSeat seat.old seat.new }
        ensures told { (v : View) → KnowsTail many capacity v tail seat.old.me.0 → MatchResult result
            (λ a. MovesBehind many capacity wanted.type_id wanted.len v a seat.new.me.0)
            (λ fault. RefusesTry many capacity wanted.type_id wanted.len v fault seat.new.me.0) }
        ensures from { IfOk result (λ a. a.tail ≡ tail) }
        ensures own { OnErr result
            (seat.old.me.0.producer.shares ≡ all_shares
            → seat.new.me.0.producer.seen_tail ≡ seat.old.me.0.producer.seen_tail) };
}

impl Kind for OneToOne {
    ghost many = { false };

    #[inline(always)]
    fn try_move<M: Mode>(
        words: &SharedRing<M>,
        seat: &mut RingSeat,
        capacity: u32,
        own_tail: u64,
        wanted: Wanted,
    ) -> Result<Admission, TryFault> {
        test_request(capacity, wanted)?;
        Self::move_from(words, seat, capacity, own_tail, wanted)
    }

    #[inline(always)]
    fn learn_tail<M: Mode>(
        _words: &SharedRing<M>,
        _seat: &mut RingSeat,
        _capacity: u32,
        own_tail: u64,
    ) -> u64 {
        own_tail
    }

    #[inline(always)]
    fn move_from<M: Mode>(
        words: &SharedRing<M>,
        seat: &mut RingSeat,
        capacity: u32,
        tail: u64,
        wanted: Wanted,
    ) -> Result<Admission, TryFault> {
        let admission = admit(capacity, tail, wanted)?;
        find_room(words, seat, capacity, admission)?;
        store_tail(words, seat, capacity, admission.end, wanted);
        Ok(admission)
    }
}

impl Kind for ManyToOne {
    ghost many = { true };

    #[inline(always)]
    fn try_move<M: Mode>(
        words: &SharedRing<M>,
        seat: &mut RingSeat,
        capacity: u32,
        _own_tail: u64,
        wanted: Wanted,
    ) -> Result<Admission, TryFault> {
        test_request(capacity, wanted)?;
        let tail = load_tail(words, seat, capacity);
        Self::move_from(words, seat, capacity, tail, wanted)
    }

    #[inline(always)]
    fn learn_tail<M: Mode>(
        words: &SharedRing<M>,
        seat: &mut RingSeat,
        capacity: u32,
        _own_tail: u64,
    ) -> u64 {
        load_tail(words, seat, capacity)
    }

    #[inline(always)]
    fn move_from<M: Mode>(
        words: &SharedRing<M>,
        seat: &mut RingSeat,
        capacity: u32,
        tail: u64,
        wanted: Wanted,
    ) -> Result<Admission, TryFault> {
        let admission = admit(capacity, tail, wanted)?;
        find_room(words, seat, capacity, admission)?;
        let seen = move_tail(words, seat, capacity, tail, admission.end, wanted);
        if seen != tail {
            return Err(TryFault::Contended { tail, seen });
        }
        Ok(admission)
    }
}
