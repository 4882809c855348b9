//! Claims and writes that try again while another producer is faster.
ghost use Rattle.std.specs.Prelude.{◌≡◌, length, replicate, [], ◌∷◌, ◌++◌, true, IfErr, IfOk, OnErr, OnOk};
ghost use Rattle.ring_rings.specs.Claiming.{AfterTries, Claims, Refuses, Writes};
ghost use Rattle.ring_rings.specs.Ring.{message, sent, HasMessage};
ghost use Rattle.ring_rings.specs.Seats.{capacity_of, view_of, IsNewClaimOf, IsProducerOf, KeepsClaims};

use crate::bodies::Bodies;
use crate::claim::Claim;
use crate::fault::TryFault;
use crate::ring::{ManyToOne, Producer, Ring};
use crossbeam_utils::Backoff;
use ring_words::ClaimFault;
use std::sync::Wait;

impl<B: Bodies> Ring<ManyToOne, B> {
    /// Claims as `claim_once` does, and tries again while the result is `Contended`. So the call may wait.
    pub fn claim<R: Wait>(
        &self,
        rt: &R,
        producer: &mut Producer,
        type_id: i32,
        len: usize,
    ) -> Result<Claim, ClaimFault>
        requires producer { IsProducerOf self.now producer.old }
        ensures producer { IsProducerOf self.now producer.new }
        ensures sent { sent producer.new ≡ sent producer.old }
        ensures message { IfOk result (λ t. HasMessage producer.new t.place (message type_id (replicate len 0))) }
        ensures claimed { IfOk result (λ t. AfterTries (capacity_of self.now) type_id len (view_of producer.old)
            (λ v. Claims true (capacity_of self.now) type_id len v t (view_of producer.new))) }
        ensures refused { IfErr result (λ fault. AfterTries (capacity_of self.now) type_id len (view_of producer.old)
            (λ v. Refuses true (capacity_of self.now) type_id len v fault (view_of producer.new))) }
        ensures opened { IfOk result (IsNewClaimOf self.now producer.old producer.new) }
        ensures keeps { KeepsClaims self.now producer.old producer.new }
    {
        let backoff = Backoff::new();
        for _ in rt.forever() {
            match self.claim_once(producer, type_id, len) {
                Ok(claim) => return Ok(claim),
                Err(TryFault::Refused(fault)) => return Err(fault),
                Err(TryFault::Contended { .. }) => backoff.snooze(),
            }
        }
        unreachable!()
    }

    /// Writes as `write_once` does, and tries again while the result is `Contended`. So the call may wait.
    pub fn write<R: Wait>(
        &self,
        rt: &R,
        producer: &mut Producer,
        type_id: i32,
        body: &[u8],
    ) -> Result<(), ClaimFault>
        requires producer { IsProducerOf self.now producer.old }
        ensures producer { IsProducerOf self.now producer.new }
        ensures sent { OnOk result (sent producer.new ≡ sent producer.old ++ message type_id body.now ∷ [])
            × OnErr result (sent producer.new ≡ sent producer.old) }
        ensures written { OnOk result
            (AfterTries (capacity_of self.now) type_id (length body.now) (view_of producer.old)
            (λ v. Writes true (capacity_of self.now) type_id body.now v (view_of producer.new))) }
        ensures refused { IfErr result (λ fault.
            AfterTries (capacity_of self.now) type_id (length body.now) (view_of producer.old)
            (λ v. Refuses true (capacity_of self.now) type_id (length body.now) v fault (view_of producer.new))) }
        ensures keeps { KeepsClaims self.now producer.old producer.new }
    {
        let backoff = Backoff::new();
        for _ in rt.forever() {
            match self.write_once(producer, type_id, body) {
                Ok(()) => return Ok(()),
                Err(TryFault::Refused(fault)) => return Err(fault),
                Err(TryFault::Contended { .. }) => backoff.snooze(),
            }
        }
        unreachable!()
    }
}
