//! The calls of a ring with any number of producers.
ghost use Rattle.std.specs.Prelude.{◌≡◌, ◌↔◌, length, replicate, [], ◌∷◌, ◌++◌, true, IfErr, IfOk, IsTrue, OnErr, OnOk, is_err};
ghost use Rattle.ring_table.specs.{Staged.AreRising, Views.producer_alone, Views.without_share};
ghost use Rattle.ring_rings.specs.Claiming.{Claims, RefusesTry, Writes};
ghost use Rattle.ring_rings.specs.{Joining.Joins, Seats.capacity_of, Seats.claims_of, Seats.shares_of, Seats.view_of};
ghost use Rattle.ring_rings.specs.Ring.{message, sent, AreMerged, HasMessage};
ghost use Rattle.ring_rings.specs.Seats.{IsNewClaimOf, IsProducerOf, KeepsBoth, KeepsClaims};

use crate::bodies::Bodies;
use crate::claim::Claim;
use crate::fault::TryFault;
use crate::ring::{ManyToOne, Producer, Ring};
use ring_layout::{NoShares, has_spare_share};
use ring_table::{join_producer, load_tail, split_producer};

impl<B: Bodies> Ring<ManyToOne, B> {
    /// Makes one try to claim room for a message of `len` bytes. The bytes are 0 until they are `put`. Several claims
    /// may be open at once. The call never waits.
    ///
    /// These are the errors, in this order:
    /// - `BadType` if the type id is below 1;
    /// - `TooLong` if the body would have more bytes than an eighth of the capacity;
    /// - `PositionLimit` if the record would end above 2^62;
    /// - `Contended` if another producer was faster. Then the head is beyond the tail that this try loaded, or the
    ///   exchange found a later tail;
    /// - `InsufficientCapacity` if the record fits neither after the cached head nor after the head. The head was
    ///   loaded after the tail.
    ///
    /// After an error no claim was made.
    pub fn claim_once(
        &self,
        producer: &mut Producer,
        type_id: i32,
        len: usize,
    ) -> Result<Claim, TryFault>
        requires producer { IsProducerOf self.now producer.old }
        ensures producer { IsProducerOf self.now producer.new }
        ensures sent { sent producer.new ≡ sent producer.old }
        ensures message { IfOk result (λ t. HasMessage producer.new t.place (message type_id (replicate len 0))) }
        ensures claimed { IfOk result (λ t.
            Claims true (capacity_of self.now) type_id len (view_of producer.old) t (view_of producer.new)) }
        ensures refused { IfErr result (λ fault.
            RefusesTry true (capacity_of self.now) type_id len (view_of producer.old) fault (view_of producer.new)) }
        ensures opened { IfOk result (IsNewClaimOf self.now producer.old producer.new) }
        ensures keeps { KeepsClaims self.now producer.old producer.new }
    {
        self.try_claim(producer, type_id, len)
    }

    /// Makes one try to write a message. The call claims room, stores the message, and commits it. The refusals are
    /// those of `claim_once`.
    #[inline(always)]
    pub fn write_once(
        &self,
        producer: &mut Producer,
        type_id: i32,
        body: &[u8],
    ) -> Result<(), TryFault>
        requires producer { IsProducerOf self.now producer.old }
        ensures producer { IsProducerOf self.now producer.new }
        ensures sent { OnOk result (sent producer.new ≡ sent producer.old ++ message type_id body.now ∷ [])
            × OnErr result (sent producer.new ≡ sent producer.old) }
        ensures written { OnOk result
            (Writes true (capacity_of self.now) type_id body.now (view_of producer.old) (view_of producer.new)) }
        ensures refused { IfErr result (λ fault.
            RefusesTry true (capacity_of self.now) type_id (length body.now)
            (view_of producer.old) fault (view_of producer.new)) }
        ensures keeps { KeepsClaims self.now producer.old producer.new }
    {
        self.try_write(producer, type_id, body)
    }

    /// Makes another producer, which gets one share of this one. The new producer has no claims, no draws, and no
    /// heartbeats that it read. Returns `NoShares` if this producer holds a single share. This producer is then
    /// unchanged.
    pub fn split(&self, producer: &mut Producer) -> Result<Producer, NoShares>
        requires { IsProducerOf self.now producer.old }
        ensures producer { IsProducerOf self.now producer.new }
        ensures sent { (sent producer.new ≡ sent producer.old) × IfOk result (λ other. sent other ≡ []) }
        ensures refused { IsTrue (is_err result) ↔ (shares_of producer.old ≡ 1) }
        ensures same { OnErr result (producer.new ≡ producer.old) }
        ensures left { OnOk result (view_of producer.new ≡ without_share (view_of producer.old)) }
        ensures right { IfOk result (λ other.
            IsProducerOf self.now other × (view_of other ≡ producer_alone (view_of producer.old))) }
        ensures keeps { KeepsClaims self.now producer.old producer.new }
    {
        if !has_spare_share(producer.shares) {
            return Err(NoShares);
        }
        let seat = split_producer(&self.table.shared, &mut producer.seat);
        producer.shares -= 1;
        Ok(Producer {
            seat,
            shares: 1,
            open_claims: 0,
            own_tail: producer.own_tail,
        })
    }

    /// Joins another producer to this one, with its shares and its claims. After that the tail is loaded.
    ///
    /// Open claims of both producers stay open. From then on this producer settles them.
    pub fn join(&self, producer: &mut Producer, other: Producer)
        requires producer { IsProducerOf self.now producer.old }
        requires other { IsProducerOf self.now other }
        ensures producer { IsProducerOf self.now producer.new }
        ensures sent { AreMerged (sent producer.old) (sent other) (sent producer.new) }
        ensures joined { Joins (capacity_of self.now) (view_of producer.old) (view_of other) (view_of producer.new) }
        ensures rising { AreRising (claims_of producer.new) }
        ensures keeps { KeepsBoth self.now producer.old other producer.new }
    {
        let Producer {
            seat,
            shares,
            open_claims,
            own_tail: _,
        } = other;
        join_producer(&self.table.shared, &mut producer.seat, seat);
        producer.own_tail = load_tail(&self.table.shared, &mut producer.seat, self.capacity);
        producer.shares += shares;
        producer.open_claims += open_claims;
    }
}
