//! A producer in a handle.
ghost use Rattle.std.specs.Prelude.{◌≡◌, IfErr, IfOk, OnOk};
ghost use Rattle.ring_layout.specs.declared.message.ClaimState.TheVariants.{Aborted, Committed};
ghost use Rattle.ring_handles.specs.Producing.{closing, positions, Claimed, Counted, Drew, HeardBeat, IsApart, Positioned};
ghost use Rattle.ring_handles.specs.Producing.{Put, SendsClaim, SendsNone, SendsOut, Settled, Splits, TakesIn, WhyNotSplit, Wrote};
ghost use Rattle.ring_handles.specs.Side.{AreOfOneRing};

use crate::claims::{abort_in, claim_in, commit_in, put_in, write_in};
use crate::code::{DONE, NO_SHARES, OTHER_RING, OUT_OF_MEMORY, WRONG_HANDLE};
use crate::identity::Identity;
use crate::ring::{AnyProducer, on_end};
use ring_ends::SplitFault;
use std::alloc::Global;
use std::marker::Model;

/// A producer, with the ring that it writes into.
#[derive(Drop)]
pub struct ProducerSide {
    pub(crate) end: AnyProducer,
    /// The ring's.
    pub(crate) identity: Identity,
}

impl Model for ProducerSide {
    ghost use Rattle.ring_handles.specs.Side.{side_in, IsOfKind, Side};

    ghost Value = { Side };

    ghost view = { λ a. side_in a.identity a.end };

    ghost invariant = { λ a. IsOfKind a.end };
}

impl ProducerSide {
    /// The bytes of the ring's buffer.
    pub(crate) fn capacity(&self) -> u32
        ensures { result ≡ self.now.capacity }
    {
        on_end!(&self.end, end => end.capacity())
    }

    /// Writes a message, by one try.
    #[inline(always)]
    pub fn write(&mut self, type_id: i32, body: &[u8]) -> i32
        ensures sent { SendsOut type_id body.now self.old.view self.new.view result }
        ensures does { Wrote type_id body.now self.old self.new result }
    {
        on_end!(&mut self.end, end => return write_in(end, type_id, body))
    }

    /// Claims room for a message, and keeps the claim.
    pub fn claim(&mut self, type_id: i32, len: usize, number: &mut u64) -> i32
        ensures sent { SendsNone self.old.view self.new.view }
        ensures does { Claimed type_id len number.old number.new self.old self.new result }
    {
        on_end!(&mut self.end, end => return claim_in(end, type_id, len, number))
    }

    /// Puts bytes into the open claim of this number.
    pub fn put(&mut self, number: u64, offset: usize, bytes: &[u8]) -> i32
        ensures sent { SendsNone self.old.view self.new.view }
        ensures does { Put number offset bytes.now self.old self.new result }
    {
        on_end!(&mut self.end, end => put_in(end, number, offset, bytes))
    }

    /// Commits the open claim of this number.
    pub fn commit(&mut self, number: u64) -> i32
        ensures sent { SendsClaim number self.old.view self.new.view result }
        ensures does { Settled Committed number self.old self.new result }
    {
        on_end!(&mut self.end, end => commit_in(end, number))
    }

    /// Aborts the open claim of this number.
    pub fn abort(&mut self, number: u64) -> i32
        ensures sent { SendsNone self.old.view self.new.view }
        ensures does { Settled Aborted number self.old self.new result }
    {
        on_end!(&mut self.end, end => abort_in(end, number))
    }

    /// Aborts all open claims.
    pub fn abort_open(&mut self)
        ensures { self.new ≡ closing self.old }
    {
        on_end!(&mut self.end, end => end.abort_open())
    }

    /// Loads the head, and then the tail.
    pub fn positions(&mut self, head: &mut u64, tail: &mut u64) -> i32
        ensures { Positioned (positions head.new tail.new) self.old self.new result }
    {
        let found = on_end!(&mut self.end, end => end.positions());
        *head = found.head;
        *tail = found.tail;
        DONE
    }

    /// Draws the ring's next correlation id.
    pub fn next_id(&mut self, id: &mut u64) -> i32
        ensures { Drew id.new self.old self.new result }
    {
        *id = on_end!(&mut self.end, end => end.next_correlation_id());
        DONE
    }

    /// Loads the consumer's heartbeat.
    pub fn heartbeat(&mut self, value: &mut u64) -> i32
        ensures { HeardBeat value.new self.old self.new result }
    {
        *value = on_end!(&mut self.end, end => end.heartbeat());
        DONE
    }

    /// Reports how many shares it holds.
    pub fn shares(&mut self, shares: &mut u32) -> i32
        ensures { Counted shares.new self.old self.new result }
    {
        *shares = on_end!(&self.end, end => end.shares());
        DONE
    }

    /// Makes another producer of the same ring. Claims that are open stay this one's.
    pub fn split(&mut self, alloc: Global) -> Result<ProducerSide, i32>
        ensures split { IfOk result (Splits self.old self.new) }
        ensures refused { IfErr result (λ code. (self.new ≡ self.old) × WhyNotSplit self.old code) }
    {
        let AnyProducer::Many(end) = &mut self.end else {
            return Err(WRONG_HANDLE);
        };
        match end.split(alloc) {
            Ok(other) => Ok(ProducerSide {
                end: AnyProducer::Many(other),
                identity: self.identity,
            }),
            Err(SplitFault::OneShare) => Err(NO_SHARES),
            Err(SplitFault::OutOfMemory) => Err(OUT_OF_MEMORY),
        }
    }

    /// Takes another producer of the same ring in, with its shares and its open claims. Otherwise it comes back.
    pub fn join(&mut self, other: ProducerSide) -> Result<(), (i32, ProducerSide)>
        requires { AreOfOneRing self.old other }
        ensures joined { OnOk result (TakesIn self.old other self.new) }
        ensures refused { IfErr result (λ r. (self.new ≡ self.old) × (r.1 ≡ other) × IsApart self.old other r.0) }
    {
        let AnyProducer::Many(mine) = &mut self.end else {
            return Err((WRONG_HANDLE, other));
        };
        let ProducerSide { end, identity } = other;
        let its = match end {
            AnyProducer::Many(its) => its,
            AnyProducer::One(its) => {
                let end = AnyProducer::One(its);
                return Err((WRONG_HANDLE, ProducerSide { end, identity }));
            }
        };
        let (code, its) = if !self.identity.is(identity) {
            (OTHER_RING, its)
        } else {
            match mine.join(its) {
                Ok(()) => return Ok(()),
                Err(its) => (OUT_OF_MEMORY, its),
            }
        };
        let end = AnyProducer::Many(its);
        Err((code, ProducerSide { end, identity }))
    }
}
