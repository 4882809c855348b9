//! The calls of a ring with one producer.
ghost use Rattle.std.specs.Prelude.{◌≡◌, false, length, replicate, [], ◌∷◌, ◌++◌, IfErr, IfOk, OnErr, OnOk};
ghost use Rattle.ring_layout.specs.Refusals.{all_shares};
ghost use Rattle.ring_rings.specs.Claiming.{Claims, Refuses, Writes};
ghost use Rattle.ring_rings.specs.Ring.{message, sent, HasMessage};
ghost use Rattle.ring_rings.specs.Seats.{capacity_of, shares_of, view_of, IsNewClaimOf, IsProducerOf, KeepsClaims};

use crate::bodies::Bodies;
use crate::claim::Claim;
use crate::fault::TryFault;
use crate::ring::{OneToOne, Producer, Ring};
use ring_words::ClaimFault;

impl<B: Bodies> Ring<OneToOne, B> {
    /// Claims room for a message of `len` bytes. The bytes are 0 until they are `put`. Several claims may be open at
    /// once.
    ///
    /// These are the errors, in this order:
    /// - `BadType` if the type id is below 1;
    /// - `TooLong` if the body would have more bytes than an eighth of the capacity;
    /// - `PositionLimit` if the record would end above 2^62;
    /// - `InsufficientCapacity` if the record does not fit after the head, which this call then loaded.
    pub fn claim(
        &self,
        producer: &mut Producer,
        type_id: i32,
        len: usize,
    ) -> Result<Claim, ClaimFault>
        requires producer { IsProducerOf self.now producer.old }
        requires sole { shares_of producer.old ≡ all_shares }
        ensures producer { IsProducerOf self.now producer.new }
        ensures sent { sent producer.new ≡ sent producer.old }
        ensures message { IfOk result (λ t. HasMessage producer.new t.place (message type_id (replicate len 0))) }
        ensures claimed { IfOk result (λ t.
            Claims false (capacity_of self.now) type_id len (view_of producer.old) t (view_of producer.new)) }
        ensures refused { IfErr result (λ fault.
            Refuses false (capacity_of self.now) type_id len (view_of producer.old) fault (view_of producer.new)) }
        ensures opened { IfOk result (IsNewClaimOf self.now producer.old producer.new) }
        ensures keeps { KeepsClaims self.now producer.old producer.new }
    {
        match self.try_claim(producer, type_id, len) {
            Ok(claim) => Ok(claim),
            Err(TryFault::Refused(fault)) => Err(fault),
            Err(TryFault::Contended { .. }) => unreachable!(),
        }
    }

    /// Writes a message. The call claims room, stores the message, and commits it. The refusals are those of `claim`.
    #[inline(always)]
    pub fn write(
        &self,
        producer: &mut Producer,
        type_id: i32,
        body: &[u8],
    ) -> Result<(), ClaimFault>
        requires producer { IsProducerOf self.now producer.old }
        requires sole { shares_of producer.old ≡ all_shares }
        ensures producer { IsProducerOf self.now producer.new }
        ensures sent { OnOk result (sent producer.new ≡ sent producer.old ++ message type_id body.now ∷ [])
            × OnErr result (sent producer.new ≡ sent producer.old) }
        ensures written { OnOk result
            (Writes false (capacity_of self.now) type_id body.now (view_of producer.old) (view_of producer.new)) }
        ensures refused { IfErr result (λ fault.
            Refuses false (capacity_of self.now) type_id (length body.now)
            (view_of producer.old) fault (view_of producer.new)) }
        ensures keeps { KeepsClaims self.now producer.old producer.new }
    {
        match self.try_write(producer, type_id, body) {
            Ok(()) => Ok(()),
            Err(TryFault::Refused(fault)) => Err(fault),
            Err(TryFault::Contended { .. }) => unreachable!(),
        }
    }
}
