//! A shared ring of either kind and over either table with its seats and up to two open claims, on which calls are
//! made.
ghost use Rattle.std.specs.Prelude.{◌≡◌, ◌≢◌, IfOk, IfSome, Some};
ghost use Rattle.ring_rings.specs.Seats.{IsConsumerOf, IsOpenClaimOf, IsProducerOf, KeepsHoldings, MayClaim};

use crate::calls::Plays;
use crate::play::call::{Call, Said};
use crate::play::team::{Other, Team};
use ring_rings::{
    Bodies, Consumer, Handler, KeptClaim, Kind, Positions, Producer, ReadEnd, Ring, TryFault,
};
use ring_words::SoloRing;
use std::alloc::Global;
use std::marker::Model;
use std::mem;
use std::process::Abort;

/// A handler that says something of what it was shown.
pub trait Shows: Handler + Drop {
    /// How many messages were shown, or what is known of them in their place.
    fn shown(&self) -> u64;
}

/// A ring with a producer at work, another one at rest, up to two open claims of each, its consumer, and the handler of
/// its reads.
#[derive(Drop)]
pub struct SharedBench<K: Kind, B: Bodies, H: Shows> {
    pub ring: Ring<K, B>,
    pub producer: Producer,
    pub last: Option<KeptClaim>,
    pub before: Option<KeptClaim>,
    pub other: Option<Other>,
    pub consumer: Consumer,
    pub handler: H,
}

impl<K: Kind, B: Bodies, H: Shows> Model for SharedBench<K, B, H> {
    ghost use Rattle.std.specs.Prelude.{ℕ, IfSome};
    ghost use Rattle.ring_rings.specs.Seats.{capacity_of, IsConsumerOf, MayClaim};
    ghost use Rattle.ring_rings_tests.specs.Held.{Holds};

    ghost Value = { ℕ };

    ghost view = { λ f. capacity_of f.ring };

    ghost invariant = { λ f. Holds f.ring f.producer f.last f.before × MayClaim K.many f.producer
        × IfSome f.other (λ o. Holds f.ring o.producer o.last o.before) × IsConsumerOf f.ring f.consumer
        × H.ready f.handler };
}

/// One of the reads.
#[derive(Clone, Copy)]
enum Way {
    Plain,
    Controlled,
    Across,
}

/// A claim that is not at this place.
pub fn apart(claim: Option<KeptClaim>, place: u64) -> Option<KeptClaim>
    ensures { IfSome result (λ t. (claim ≡ Some t) × (t.place ≢ place)) }
{
    match claim {
        Some(claim) if claim.place() != place => Some(claim),
        _ => None,
    }
}

fn refused(fault: TryFault) -> Said {
    match fault {
        TryFault::Refused(fault) => Said::Refused(fault),
        TryFault::Contended { .. } => Said::Contended,
    }
}

/// Claims, with what the claim says.
fn claimed<K: Kind, B: Bodies>(
    ring: &Ring<K, B>,
    producer: &mut Producer,
    type_id: i32,
    len: usize,
) -> Result<(KeptClaim, Said), TryFault>
    requires producer { IsProducerOf ring.now producer.old }
    requires sole { MayClaim K.many producer.old }
    ensures producer { IsProducerOf ring.now producer.new }
    ensures is_open { IfOk result (λ made. IsOpenClaimOf ring.now producer.new made.0) }
    ensures keeps { KeepsHoldings ring.now producer.old producer.new }
{
    match ring.try_claim(producer, type_id, len) {
        Ok(claim) => {
            let said = Said::made(claim.place(), claim.index(), claim.len(), claim.is_empty());
            Ok((KeptClaim::of(claim), said))
        }
        Err(fault) => Err(fault),
    }
}

fn read_by<K, B: Bodies, H: Handler>(
    ring: &Ring<K, B>,
    consumer: &mut Consumer,
    way: Way,
    limit: u32,
    handler: &mut H,
) -> ReadEnd
    requires consumer { IsConsumerOf ring.now consumer.old }
    requires ready { H.ready handler.old }
    ensures consumer { IsConsumerOf ring.now consumer.new }
    ensures ready { H.ready handler.new }
{
    match way {
        Way::Plain => ring.read(consumer, limit, handler),
        Way::Controlled => ring.controlled_read(consumer, limit, handler),
        Way::Across => ring.read_across(consumer, limit, handler),
    }
}

/// The positions of the ring.
fn positions<K, B: Bodies>(ring: &Ring<K, B>, producer: &mut Producer) -> Positions
    requires { IsProducerOf ring.now producer.old }
    ensures producer { IsProducerOf ring.now producer.new }
    ensures keeps { KeepsHoldings ring.now producer.old producer.new }
{
    ring.positions(producer)
}

/// Makes a call that changes nothing in the ring's buffer.
fn asked<K, B: Bodies>(ring: &Ring<K, B>, producer: &mut Producer, call: Call<'_>) -> Said
    requires { IsProducerOf ring.now producer.old }
    ensures producer { IsProducerOf ring.now producer.new }
    ensures keeps { KeepsHoldings ring.now producer.old producer.new }
{
    match call {
        Call::Positions => {
            let Positions { head, tail } = ring.positions(producer);
            Said::At(head, tail)
        }
        Call::Used => Said::Number(ring.positions(producer).used()),
        Call::CorrelationId => Said::Number(ring.next_correlation_id(producer)),
        Call::Heartbeat => Said::Number(ring.heartbeat(producer)),
        Call::Holds => Said::Holds(producer.shares(), producer.open_claims()),
        Call::Capacity => Said::Number(u64::from(ring.capacity())),
        Call::MaxMessage => Said::Number(u64::from(ring.max_message())),
        _ => Said::Missing,
    }
}

impl<K: Kind, B: Bodies, H: Shows> SharedBench<K, B, H> {
    /// A ring of this capacity that begins at this position.
    pub fn new(rt: &impl Abort, alloc: Global, capacity: u32, start: u64, handler: H) -> Self
        requires { H.ready handler }
    {
        let (ring, producer, consumer) = Ring::<K, B>::new_at(alloc, capacity, start).expect(
            rt, "a ring",
        );
        SharedBench {
            ring,
            producer,
            last: None,
            before: None,
            other: None,
            consumer,
            handler,
        }
    }

    fn write(&mut self, type_id: i32, body: &[u8]) -> Said {
        match self.ring.try_write(&mut self.producer, type_id, body) {
            Ok(()) => Said::Done,
            Err(fault) => refused(fault),
        }
    }

    /// Claims, if fewer than two claims are open.
    fn claim(&mut self, type_id: i32, len: usize) -> Said {
        if self.before.is_some() {
            return Said::Missing;
        }
        match claimed(&self.ring, &mut self.producer, type_id, len) {
            Ok((claim, said)) => {
                self.before = self.last.replace(claim);
                said
            }
            Err(fault) => refused(fault),
        }
    }

    fn turn(&mut self) -> Said {
        mem::swap(&mut self.last, &mut self.before);
        Said::Done
    }

    fn put(&mut self, offset: usize, bytes: &[u8]) -> Said {
        let Some(kept) = self.last.take() else {
            return Said::Missing;
        };
        let before = apart(self.before.take(), kept.place());
        let mut claim = kept.into_claim();
        let put = self.ring.put(&mut self.producer, &mut claim, offset, bytes);
        self.last = Some(KeptClaim::of(claim));
        self.before = before;
        if put.is_ok() {
            Said::Done
        } else {
            Said::Outside
        }
    }

    /// Commits or aborts the last claim.
    pub fn settle(&mut self, commits: bool) -> Said {
        let Some(kept) = self.last.take() else {
            return Said::Missing;
        };
        let before = apart(self.before.take(), kept.place());
        let claim = kept.into_claim();
        if commits {
            self.ring.commit(&mut self.producer, claim);
        } else {
            self.ring.abort(&mut self.producer, claim);
        }
        self.last = before;
        Said::Done
    }

    fn read(&mut self, way: Way, limit: u32) -> Said {
        let end = read_by(
            &self.ring,
            &mut self.consumer,
            way,
            limit,
            &mut self.handler,
        );
        Said::Read(end.messages, end.bytes, end.stopped)
    }

    /// What the positions around a read and its end show.
    fn standing(&mut self, limit: u32) -> Said {
        let before = positions(&self.ring, &mut self.producer);
        let end = read_by(
            &self.ring,
            &mut self.consumer,
            Way::Plain,
            limit,
            &mut self.handler,
        );
        Said::Stands(end.standing(before, positions(&self.ring, &mut self.producer)))
    }

    fn set_heartbeat(&mut self, value: u64) -> Said {
        self.ring.set_heartbeat(&mut self.consumer, value);
        Said::Done
    }

    fn ask(&mut self, call: Call<'_>) -> Said {
        asked(&self.ring, &mut self.producer, call)
    }

    /// The ring's content, if the ring can be closed, and the handler.
    pub fn close(self) -> (Option<SoloRing>, H) {
        let SharedBench {
            ring,
            producer,
            consumer,
            handler,
            ..
        } = self;
        (ring.close(producer, consumer).ok(), handler)
    }
}

impl<'a, K: Team, B: Bodies, H: Shows> Plays<Call<'a>, Said> for SharedBench<K, B, H> {
    fn call(&mut self, call: Call<'a>) -> Said {
        match call {
            Call::Write(type_id, body) => self.write(type_id, body),
            Call::Claim(type_id, len) => self.claim(type_id, len),
            Call::Turn => self.turn(),
            Call::Put(offset, bytes) => self.put(offset, bytes),
            Call::Commit => self.settle(true),
            Call::Abort => self.settle(false),
            Call::Read(limit) => self.read(Way::Plain, limit),
            Call::ControlledRead(limit) => self.read(Way::Controlled, limit),
            Call::ReadAcross(limit) => self.read(Way::Across, limit),
            Call::Standing(limit) => self.standing(limit),
            Call::Shown => Said::Number(self.handler.shown()),
            Call::SetHeartbeat(value) => self.set_heartbeat(value),
            Call::Swap => K::swap(self),
            Call::Join => K::join(self),
            _ => self.ask(call),
        }
    }
}
