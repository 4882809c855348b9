//! The calls by which producers settle their claims.
ghost use Rattle.std.specs.Prelude.{◌≡◌, ◌≢◌, ◌+◌, ◌<◌, ◌↔◌, length, IsTrue, OnErr, OnOk, is_err};
ghost use Rattle.ring_layout.specs.declared.message.ClaimState.TheVariants.{Aborted, Committed, Open};
ghost use Rattle.ring_layout.specs.{declared.message.Message.Message, History.overwritten, History.IsMessage};
ghost use Rattle.ring_table.specs.{declared.claim.Stage.TheVariants.Stored, Seats.IsSameSeat, Seats.IsSeatOf};
ghost use Rattle.ring_table.specs.{Changes.blank, Changes.staged, Staged.AreRising};
ghost use Rattle.ring_table.specs.ProducerSteps.{with_changed, HasClaimAt, IsStagedOpen};
ghost use Rattle.ring_rings.specs.{Bodies.PutsBytes, Ring.message, Ring.sent, Ring.HasMessage, Ring.SendsClaimed};
ghost use Rattle.ring_rings.specs.Seats.{view_of, IsOpenClaimOf, IsProducerOf, KeepsOthers};

use crate::bodies::Bodies;
use crate::claim::Claim;
use crate::ring::{Producer, Ring};
use ring_layout::ClaimState;
use ring_table::{Headers, RingSeat, SharedRing, Wanted};
use ring_words::PutRange;

/// Stores the header of an open claim, which is then committed or aborted.
#[inline]
fn store_settled_header<M: Headers>(
    words: &SharedRing<M>,
    seat: &mut RingSeat,
    capacity: u32,
    place: u64,
    wanted: Wanted,
    state: ClaimState,
)
    requires seat { IsSeatOf words.now.table_id words.now.key capacity seat.old }
    requires message { IsMessage capacity (blank wanted.type_id wanted.len) }
    requires claim { HasClaimAt seat.old.me.0 place (IsStagedOpen wanted.type_id wanted.len) }
    requires settled { state ≢ Open }
    ensures seat { IsSameSeat seat.old seat.new }
    ensures view { seat.new.me.0 ≡ with_changed place (staged (Stored state)) seat.old.me.0 }
    ensures rising { AreRising seat.old.me.0.producer.claims }
{
    match state {
        ClaimState::Aborted => M::store_aborted_header(words, seat, capacity, place, wanted),
        ClaimState::Committed | ClaimState::Open => {
            M::store_committed_header(words, seat, capacity, place, wanted);
        }
    }
}

impl<K, B: Bodies> Ring<K, B> {
    /// Puts bytes into an open claim, from the byte `offset` of its body on. Refuses bytes that are not inside the
    /// body. Then nothing is changed.
    pub fn put(
        &self,
        producer: &mut Producer,
        claim: &mut Claim,
        offset: usize,
        bytes: &[u8],
    ) -> Result<(), PutRange>
        requires producer { IsProducerOf self.now producer.old }
        requires claim { IsOpenClaimOf self.now producer.old claim.old }
        ensures producer { IsProducerOf self.now producer.new }
        ensures sent { sent producer.new ≡ sent producer.old }
        ensures refused { (IsTrue (is_err result) ↔ (claim.old.len < offset + length bytes.now))
            × OnErr result (producer.new ≡ producer.old) }
        ensures message { OnOk result ((m : Message) → HasMessage producer.old claim.old.place m
            → HasMessage producer.new claim.old.place (message m.type_id (overwritten offset bytes.now m.body))) }
        ensures put { OnOk result
            (PutsBytes claim.old.place offset bytes.now (view_of producer.old) (view_of producer.new)) }
        ensures claim { (claim.new ≡ claim.old) × IsOpenClaimOf self.now producer.new claim.new }
        ensures others { KeepsOthers self.now claim.old.place producer.old producer.new }
    {
        let len = claim.len();
        if offset > len || bytes.len() > len - offset {
            return Err(PutRange);
        }
        B::put_bytes(
            &self.table.shared,
            &mut producer.seat,
            self.capacity,
            claim.place(),
            len,
            offset,
            bytes,
        );
        Ok(())
    }

    /// Settles an open claim as committed or as aborted.
    #[inline]
    fn settle(&self, producer: &mut Producer, claim: Claim, state: ClaimState)
        requires producer { IsProducerOf self.now producer.old }
        requires claim { IsOpenClaimOf self.now producer.old claim }
        requires settled { state ≢ Open }
        ensures producer { IsProducerOf self.now producer.new }
        ensures settled { view_of producer.new
            ≡ with_changed claim.place (staged (Stored state)) (view_of producer.old) }
        ensures others { KeepsOthers self.now claim.place producer.old producer.new }
    {
        let wanted = Wanted {
            type_id: claim.type_id(),
            len: claim.len(),
        };
        store_settled_header(
            &self.table.shared,
            &mut producer.seat,
            self.capacity,
            claim.place(),
            wanted,
            state,
        );
        producer.open_claims -= 1;
        claim.spend();
    }

    /// Commits an open claim, so that the consumer is shown its message.
    pub fn commit(&self, producer: &mut Producer, claim: Claim)
        requires producer { IsProducerOf self.now producer.old }
        requires claim { IsOpenClaimOf self.now producer.old claim }
        ensures producer { IsProducerOf self.now producer.new }
        ensures sent { SendsClaimed claim.place producer.old producer.new }
        ensures settled { view_of producer.new
            ≡ with_changed claim.place (staged (Stored Committed)) (view_of producer.old) }
        ensures others { KeepsOthers self.now claim.place producer.old producer.new }
    {
        self.settle(producer, claim, ClaimState::Committed);
    }

    /// Aborts an open claim, so that the consumer passes it.
    pub fn abort(&self, producer: &mut Producer, claim: Claim)
        requires producer { IsProducerOf self.now producer.old }
        requires claim { IsOpenClaimOf self.now producer.old claim }
        ensures producer { IsProducerOf self.now producer.new }
        ensures sent { sent producer.new ≡ sent producer.old }
        ensures settled { view_of producer.new
            ≡ with_changed claim.place (staged (Stored Aborted)) (view_of producer.old) }
        ensures others { KeepsOthers self.now claim.place producer.old producer.new }
    {
        self.settle(producer, claim, ClaimState::Aborted);
    }
}
