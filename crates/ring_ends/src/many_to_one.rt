//! The calls of one of many producers of a ring.
ghost use Rattle.std.specs.Prelude.{◌≡◌, ◌≢◌, [], replicate, IfErr, IfOk, OnOk};
ghost use Rattle.ring_ends.specs.declared.many_to_one.SplitFault.TheVariants.{OneShare};
ghost use Rattle.ring_table.specs.Views.{producer_alone, without_share};
ghost use Rattle.ring_rings.specs.{Joining.Joins, Ring.message, Ring.AreMerged, Seats.KeepsBothOpen, Seats.OpensAt};
ghost use Rattle.ring_ends.specs.End.{sent, shares, AreOfOneTable, Does, HasMessage, KeepsClaims, Sends, WaitsToClaim, WaitsToWrite};

use crate::producer::ProducerEnd;
use ring_rings::{Bodies, Claim, ClaimFault, ManyToOne, NoShares};
use std::sync::{Arc, Wait};

/// Why an end was not split.
#[derive(Clone, Copy, Debug, PartialEq, Eq)]
pub enum SplitFault {
    /// It holds a single share.
    OneShare,
    /// The ring has too many ends.
    OutOfMemory,
}

impl<B: Bodies> ProducerEnd<ManyToOne, B> {
    /// Writes a message, and tries again while another producer is faster. So it may wait.
    #[inline(always)]
    pub fn write<R: Wait>(&mut self, rt: &R, type_id: i32, body: &[u8]) -> Result<(), ClaimFault>
        ensures sent { Sends type_id body.now self.old result self.new }
        ensures does { Does (WaitsToWrite self.old.capacity type_id body.now) self.old result self.new }
        ensures keeps { KeepsClaims self.old self.new }
    {
        self.ring.write(rt, &mut self.producer, type_id, body)
    }

    /// Claims room for a message of `len` bytes, and tries again while another producer is faster. So it may wait.
    pub fn claim<R: Wait>(&mut self, rt: &R, type_id: i32, len: usize) -> Result<Claim, ClaimFault>
        ensures sent { sent self.new ≡ sent self.old }
        ensures message { IfOk result (λ t. HasMessage self.new t.place (message type_id (replicate len 0))) }
        ensures does { Does (WaitsToClaim self.old.capacity type_id len) self.old result self.new }
        ensures opened { IfOk result (OpensAt self.old.capacity self.old.view self.new.view) }
        ensures keeps { KeepsClaims self.old self.new }
    {
        self.ring.claim(rt, &mut self.producer, type_id, len)
    }

    /// Makes another end of the same ring with one share of this one's. Open claims stay this one's.
    pub fn split(&mut self) -> Result<Self, SplitFault>
        ensures sent { (sent self.new ≡ sent self.old) × IfOk result (λ other. sent other ≡ []) }
        ensures left { OnOk result (self.new ≡ record self.old { view = without_share self.old.view }) }
        ensures right { IfOk result (λ other. other ≡ record self.old { view = producer_alone self.old.view }) }
        ensures refused { IfErr result (λ fault. (self.new ≡ self.old) × (fault ≡ OneShare → shares self.old ≡ 1)) }
        ensures spare { OnOk result (shares self.old ≢ 1) }
        ensures keeps { KeepsClaims self.old self.new }
    {
        let Ok(ring) = Arc::try_clone(&self.ring) else {
            return Err(SplitFault::OutOfMemory);
        };
        match self.ring.split(&mut self.producer) {
            Ok(producer) => Ok(ProducerEnd { ring, producer }),
            Err(NoShares) => Err(SplitFault::OneShare),
        }
    }

    /// Takes another end of the same ring in, with its shares and its claims, which this one settles from then on.
    pub fn join(&mut self, other: Self)
        requires { AreOfOneTable self.old other }
        ensures sent { AreMerged (sent self.old) (sent other) (sent self.new) }
        ensures does { Does (λ v r w. Joins self.old.capacity v other.view w) self.old result self.new }
        ensures keeps { KeepsBothOpen self.old.capacity self.old.view other.view self.new.view }
    {
        let ProducerEnd { ring: _, producer } = other;
        self.ring.join(&mut self.producer, producer);
    }
}
