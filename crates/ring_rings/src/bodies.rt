//! The memory of the bodies of a ring's messages, and the steps that depend on it. The other steps are functions of
//! `ring_table`.
ghost use Rattle.std.specs.Prelude.{◌≡◌, ℕ, ◌+◌, ◌/◌, ◌%◌, ◌≤◌, List, [], ◌∷◌, ◌++◌, length, vec_len, IfOk};
ghost use Rattle.std.specs.Slots.{slots_len};
ghost use Rattle.ring_layout.specs.{History.IsMessage, Layout.ring_words, Places.max_position};
ghost use Rattle.ring_table.specs.declared.claim.{PlacedMessage.PlacedMessage, StagedClaim.StagedClaim};
ghost use Rattle.ring_table.specs.{Changes.blank, Changes.recorded, Changes.with_header, SlotSteps.IsOpenOf};
ghost use Rattle.ring_table.specs.{declared.view.Key.Key as TheKey, declared.view.View.View, Owners.OwnedHistory};
ghost use Rattle.ring_table.specs.{Closed.IsClosed, Closed.IsLeft, Closed.LeavesRest, Seats.IsSameSeat, Seats.IsSeatOf};
ghost use Rattle.ring_table.specs.ConsumerSteps.{StandsBefore, StoresHead, StoresHeadBefore};
ghost use Rattle.ring_table.specs.ProducerSteps.{with_changed, HasClaimAt, NeedsHeader};
ghost use Rattle.ring_table.specs.{Rescued.HadHistory, Rescued.IsSaved, Rescued.Rescues, Staged.AreRising};
ghost use Rattle.ring_table.specs.{Rule.IsLawful, Views.first_view, Views.with_claims};
ghost use Rattle.ring_rings.specs.Bodies.{HasPaddedLast, IsPaddedLast, PutsBytes};
ghost use Rattle.ring_rings.specs.ReadingSteps.{CopiesBody, HasBodyAt, HasGotLast, HasLastAt, IsInBlock, IsReaderSeatOf, LoadsWholeBody, OnlyLoads};

use atomic_table::Closed;
use ring_table::{Headers, Key, RingSeat, RingTable, Run, SharedRing, Unsettled, Wanted};
use std::alloc::{AllocError, Global};

/// The memory of the bodies of messages, which is words (`InWords`) or slots (`InSlots`).
pub trait Bodies: Headers {
    /// Returns the number of slots of a table of this many bytes.
    ghost slots_for: { ℕ → ℕ };

    /// Returns a fresh ring and its first seat. This seat is the only producer and the consumer. The only error is out
    /// of memory.
    fn open(alloc: Global, key: Key) -> Result<(RingTable<Self>, RingSeat), AllocError>
        requires lawful { IsLawful key.capacity key.start }
        requires limit { key.start ≤ max_position }
        ensures words { IfOk result (λ t. (t.0.shared.table_id.words ≡ ring_words key.capacity)
            × (t.0.shared.table_id.slots ≡ slots_for key.capacity)) }
        ensures key { IfOk result (λ t. t.0.shared.key ≡ key) }
        ensures seat { IfOk result (λ t. t.1.table_id ≡ t.0.shared.table_id) }
        ensures view { IfOk result (λ t. t.1.me ≡ (first_view key, [])) };

    /// Stores the header of a claim of `len` bytes, with its length negated. The claim is then open, and its bytes are
    /// zeros.
    fn store_claimed_header(
        words: &SharedRing<Self>,
        producer: &mut RingSeat,
        capacity: u32,
        place: u64,
        wanted: Wanted,
    )
        requires seat { IsSeatOf words.now.table_id words.now.key capacity producer.old }
        requires message { IsMessage capacity (blank wanted.type_id wanted.len) }
        requires claim { HasClaimAt producer.old.me.0 place (NeedsHeader wanted.len) }
        ensures seat { IsSameSeat producer.old producer.new }
        ensures view { producer.new.me.0
            ≡ with_changed place (with_header wanted.type_id wanted.len) producer.old.me.0 }
        ensures rising { AreRising producer.old.me.0.producer.claims };

    /// Stores the header and the whole body of the newest claim, and commits it.
    fn store_record(
        words: &SharedRing<Self>,
        seat: &mut RingSeat,
        capacity: u32,
        place: u64,
        wanted: Wanted,
        body: &[u8],
    )
        requires seat { IsSeatOf words.now.table_id words.now.key capacity seat.old }
        requires message { IsMessage capacity (blank wanted.type_id wanted.len) }
        requires len { length body.now ≡ wanted.len }
        requires inside { (place ≤ max_position) × (place % capacity + 8 + length body.now ≤ capacity) }
        requires last { HasPaddedLast place wanted.len seat.old.me.0 }
        ensures seat { IsSameSeat seat.old seat.new }
        ensures stored { (cs : List StagedClaim) (c : StagedClaim)
            → IsPaddedLast place wanted.len cs c seat.old.me.0
            → seat.new.me.0 ≡ with_claims (cs ++ recorded wanted.type_id body.now c ∷ []) seat.old.me.0 };

    /// Puts bytes into an open claim of `len` bytes, from the byte `offset` of its body on.
    fn put_bytes(
        words: &SharedRing<Self>,
        seat: &mut RingSeat,
        capacity: u32,
        place: u64,
        len: usize,
        offset: usize,
        bytes: &[u8],
    )
        requires seat { IsSeatOf words.now.table_id words.now.key capacity seat.old }
        requires place { place ≤ max_position }
        requires claim { HasClaimAt seat.old.me.0 place (IsOpenOf len) }
        requires short { (offset + length bytes.now ≤ len) × (len ≤ capacity) }
        ensures seat { IsSameSeat seat.old seat.new }
        ensures put { PutsBytes place offset bytes.now seat.old.me.0 seat.new.me.0 };

    /// Copies the body of the message that the read found last to the front of the scratch.
    fn load_body(
        words: &SharedRing<Self>,
        seat: &mut RingSeat,
        capacity: u32,
        place: u64,
        len: usize,
        scratch: &mut [u8],
    )
        requires seat { IsReaderSeatOf words.now.table_id words.now.key capacity seat.old }
        requires body { HasBodyAt capacity seat.old.me.0.consumer.cleared place len }
        requires last { HasLastAt place len seat.old.me.0 }
        requires room { length scratch.old ≡ capacity / 8 }
        ensures seat { IsSameSeat seat.old seat.new }
        ensures rest { OnlyLoads seat.old.me.0 seat.new.me.0 }
        ensures copies { (m : PlacedMessage) → HasGotLast m seat.old.me.0 → m.place ≡ place
            → length m.message.body ≡ len → CopiesBody capacity m seat.old.me.0 scratch.new seat.new.me.0 };

    /// Skips the body of the message that the read got last, and copies no byte of it.
    fn skip_body(
        words: &SharedRing<Self>,
        seat: &mut RingSeat,
        capacity: u32,
        place: u64,
        len: usize,
    )
        requires seat { IsReaderSeatOf words.now.table_id words.now.key capacity seat.old }
        requires body { HasBodyAt capacity seat.old.me.0.consumer.cleared place len }
        requires last { HasLastAt place len seat.old.me.0 }
        ensures seat { IsSameSeat seat.old seat.new }
        ensures rest { OnlyLoads seat.old.me.0 seat.new.me.0 }
        ensures loads { (m : PlacedMessage) → HasGotLast m seat.old.me.0 → m.place ≡ place
            → length m.message.body ≡ len → LoadsWholeBody capacity m seat.old.me.0 seat.new.me.0 };

    /// Stores the head after all that the read has passed, from the head up to the position `to`. If bodies are in
    /// words, these words are cleared first.
    fn store_head(
        words: &SharedRing<Self>,
        seat: &mut RingSeat,
        capacity: u32,
        head: u64,
        to: u64,
        run: Run,
    )
        requires seat { IsReaderSeatOf words.now.table_id words.now.key capacity seat.old }
        requires stands { (seat.old.me.0.consumer.head ≡ head) × (seat.old.me.0.consumer.cleared ≡ head) }
        requires passed { (head ≤ to) × (seat.old.me.0.consumer.scan ≡ to) }
        requires whole { (head % 8 ≡ 0) × (to % 8 ≡ 0) }
        requires inside { IsInBlock capacity head to }
        requires run { seat.old.me.0.consumer.run ≡ run }
        ensures seat { IsSameSeat seat.old seat.new }
        ensures told { StoresHead seat.old.me.0 seat.new.me.0 };

    /// Does the same up to the last message that the read has got, which is at the position `to` and stays in the ring.
    fn store_head_before(
        words: &SharedRing<Self>,
        seat: &mut RingSeat,
        capacity: u32,
        head: u64,
        to: u64,
        run: Run,
    )
        requires seat { IsReaderSeatOf words.now.table_id words.now.key capacity seat.old }
        requires stands { (seat.old.me.0.consumer.head ≡ head) × (seat.old.me.0.consumer.cleared ≡ head) }
        requires run { (seat.old.me.0.consumer.run ≡ run) × (run.from ≤ to) }
        requires last { StandsBefore to seat.old.me.0 }
        requires passed { (head ≤ to) × (to ≤ seat.old.me.0.consumer.scan) }
        requires whole { (head % 8 ≡ 0) × (to % 8 ≡ 0) }
        requires inside { IsInBlock capacity head to }
        ensures seat { IsSameSeat seat.old seat.new }
        ensures told { StoresHeadBefore seat.old.me.0 seat.new.me.0 };

    /// Writes the words of a ring into `room`, in the ring's format, and returns them. They are made from what the
    /// ring's table left.
    fn show(closed: Closed<u64, Global>, room: Vec<u64>) -> Vec<u64>
        requires left { (k : TheKey) × (v : View) × IsLeft Self.bodies k v closed
            × (slots_len closed.slots ≡ slots_for k.capacity) }
        requires room { vec_len room ≡ slots_len closed.words }
        ensures { (k : TheKey) (v : View) → IsLeft Self.bodies k v closed
            → IsClosed k.capacity k.start result.items v × LeavesRest k.capacity result.items v };

    /// Does the same, even if other seats than the consumer's were lost. Claims that no seat settled are settled in
    /// these words.
    fn rescue(closed: Closed<u64, Global>, capacity: u32, room: Vec<u64>) -> (Vec<u64>, Unsettled)
        requires left { (k : TheKey) × (v : View) × IsSaved Self.bodies k v closed
            × (slots_len closed.slots ≡ slots_for k.capacity) × (k.capacity ≡ capacity) }
        requires room { vec_len room ≡ slots_len closed.words }
        ensures { (k : TheKey) (v : View) (hist : OwnedHistory) (drawn : ℕ) → IsSaved Self.bodies k v closed
            → HadHistory Self.bodies k v closed hist drawn → k.capacity ≡ capacity
            → Rescues capacity k.start v hist drawn result.0.items result.1.claims result.1.silent };
}
