//! The ring of a run, with its numbered claims.
ghost use Rattle.std.specs.Prelude.{◌≡◌, true, IfNone, IfOk, IfSome, OnSome};
ghost use Rattle.ring_layout.specs.declared.message.ClaimState.TheVariants.{Aborted, Committed};
ghost use Rattle.ring_layout.specs.Places.{is_capacity};
ghost use Rattle.ring_layout.specs.Refusals.{all_shares, make_refusal_of, IsMadeUnless};
ghost use Rattle.ring_ends.specs.End.{shares, AreOfOneRing};

use ring_ends::{ClaimRefused, ConsumerEnd, NumberFault, Numbered, NumberedEnd, open};
use ring_rings::{InWords, ManyToOne, TryFault};
use ring_words::{ClaimFault, MakeFault, PutRange};
use std::alloc::{AllocError, Global};

/// A claim that was made, with its number and the byte index of its body in the buffer.
#[derive(Clone, Copy, Debug, PartialEq, Eq)]
pub struct Claimed {
    pub number: usize,
    pub index: u32,
}

/// A ring with its only producer and its consumer. The claims are numbered from 1. No number is given to two claims.
#[derive(Drop)]
pub struct RunRing {
    pub(crate) producer: NumberedEnd<ManyToOne, InWords>,
    pub(crate) consumer: ConsumerEnd<ManyToOne, InWords>,
    /// The place of the claim of each number. It stays after the claim was settled.
    pub(crate) places: Numbered<u64>,
    ghost one_ring: { AreOfOneRing consumer producer.end },
    ghost start: { producer.end.start ≡ 0 },
    ghost many: { producer.end.many ≡ true },
    ghost alone: { shares producer.end ≡ all_shares },
}

impl RunRing {
    ghost use Rattle.ring_scenario.specs.{Closing.LeavesMessages, Making.IsFresh};
    ghost use Rattle.ring_scenario.specs.RingLines.{ClaimsNumber, HasNoClaim, KeepsButProducing, PutsNumber, SettlesNumber};

    /// Makes an empty ring.
    pub fn new(alloc: Global, capacity: u32) -> Result<Self, MakeFault>
        ensures refused { IsMadeUnless (make_refusal_of (is_capacity capacity) capacity 0) result }
        ensures fresh { IfOk result (IsFresh capacity) }
    {
        let (producer, consumer) = open::<ManyToOne, InWords>(alloc, capacity, 0)?;
        Ok(RunRing {
            producer: NumberedEnd::of(alloc, producer),
            consumer,
            places: Numbered::new(alloc),
        })
    }

    /// Claims room, and gives the claim the next number. The room to keep the number is made first.
    pub fn claim(
        &mut self,
        type_id: i32,
        len: usize,
    ) -> Result<Result<Claimed, ClaimFault>, AllocError>
        ensures claimed { IfOk result (λ tried. ClaimsNumber type_id len self.old tried self.new) }
        ensures consumer { self.new.consumer ≡ self.old.consumer }
    {
        self.places.reserve()?;
        match self.producer.claim(type_id, len) {
            Ok(kept) => Ok(Ok(Claimed {
                number: self.places.hold(kept.number),
                index: kept.index,
            })),
            Err(ClaimRefused::Refused(TryFault::Refused(fault))) => Ok(Err(fault)),
            Err(ClaimRefused::Refused(TryFault::Contended { .. })) => unreachable!(),
            Err(ClaimRefused::NoMemory) => Err(AllocError),
        }
    }

    /// Puts bytes into the claim of this number. Returns `None` if the claim is not open.
    pub fn put(
        &mut self,
        number: usize,
        offset: usize,
        bytes: &[u8],
    ) -> Option<Result<(), PutRange>>
        ensures put { IfSome result (λ tried. PutsNumber number offset bytes.now self.old tried self.new) }
        ensures none { IfNone result (HasNoClaim self.old number) }
        ensures rest { KeepsButProducing self.old self.new }
    {
        let place = *self.places.get(number)?;
        match self.producer.put(place, offset, bytes) {
            Ok(()) => Some(Ok(())),
            Err(NumberFault::PutRange) => Some(Err(PutRange)),
            Err(NumberFault::NoClaim) => None,
        }
    }

    /// Commits the claim of this number. Returns `None` if the claim is not open.
    pub fn commit(&mut self, number: usize) -> Option<()>
        ensures settled { OnSome result (SettlesNumber Committed number self.old self.new) }
        ensures none { IfNone result (HasNoClaim self.old number) }
        ensures rest { KeepsButProducing self.old self.new }
    {
        let place = *self.places.get(number)?;
        self.producer.commit(place).ok()
    }

    /// Aborts the claim of this number. Returns `None` if the claim is not open.
    pub fn abort(&mut self, number: usize) -> Option<()>
        ensures settled { OnSome result (SettlesNumber Aborted number self.old self.new) }
        ensures none { IfNone result (HasNoClaim self.old number) }
        ensures rest { KeepsButProducing self.old self.new }
    {
        let place = *self.places.get(number)?;
        self.producer.abort(place).ok()
    }

    /// Aborts all open claims, takes the ring apart, and returns the number of messages that are left. Returns `None`
    /// if the ring has another end. It has none, but no contract of `Arc` says so.
    pub fn close(self) -> Option<u32>
        ensures { IfSome result (LeavesMessages self) }
    {
        let RunRing {
            producer,
            consumer,
            places: _,
        } = self;
        let last = match consumer.close(producer.into_end()) {
            Ok(last) => last,
            Err(_refused) => unreachable!(),
        };
        match last.finish() {
            Ok(mut rest) => Some(rest.drain()),
            Err(_in_use) => None,
        }
    }
}
