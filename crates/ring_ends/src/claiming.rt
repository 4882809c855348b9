//! A producer that keeps its open claims, which its calls name by number.
ghost use Rattle.std.specs.Prelude.{◌≡◌, ◌≢◌, [], IfErr, IfOk, OnOk};
ghost use Rattle.ring_layout.specs.declared.message.ClaimState.TheVariants.{Aborted, Committed};
ghost use Rattle.ring_layout.specs.Refusals.{all_shares};
ghost use Rattle.ring_table.specs.{OpenClaims.open_count, ServiceSteps.DrawsId, ServiceSteps.LoadsHeartbeat};
ghost use Rattle.ring_table.specs.Views.{producer_alone, without_share};
ghost use Rattle.ring_ends.specs.{declared.many_to_one.SplitFault.TheVariants.OneShare, Claiming.TriesToKeep};
ghost use Rattle.ring_ends.specs.Claims.{claims_in};
ghost use Rattle.ring_ends.specs.Claiming.{aborted_view, AreAllOpen, KeepsNumbered, OfEnd, Puts, SendsNumbered, Settles, TakesIn};
ghost use Rattle.ring_ends.specs.End.{sent, shares, AreOfOneTable, Does, IsOfEnd, LoadsThem, Sends, TriesWrite, WritesAlone};

use crate::many_to_one::SplitFault;
use crate::open_claims::OpenClaims;
use crate::producer::ProducerEnd;
use ring_rings::{Bodies, ClaimFault, Kind, ManyToOne, Positions, Producer, TryFault};
use std::alloc::Global;
use std::marker::Model;

/// A producer with its ring and its open claims. The number of a claim is its place.
#[derive(Drop)]
pub struct NumberedEnd<K: Kind, B: Bodies> {
    pub(crate) end: ProducerEnd<K, B>,
    claims: OpenClaims,
}

impl<K: Kind, B: Bodies> Model for NumberedEnd<K, B> {
    ghost use Rattle.ring_ends.specs.{Claims.claims_in, Claiming.AreAllOpen, Claiming.NumberedClaims};

    ghost Value = { NumberedClaims };

    ghost view = { λ e. record { end = e.end; claims = claims_in e.claims } };

    ghost invariant = { λ e. AreAllOpen e.end.capacity e.end.view (claims_in e.claims) };
}

/// A claim that was made: its number, and the byte index of its body in the buffer.
#[derive(Clone, Copy, Debug, PartialEq, Eq)]
pub struct Claimed {
    pub number: u64,
    pub index: u32,
}

/// The reason why a claim was not made.
#[derive(Clone, Copy, Debug, PartialEq, Eq)]
pub enum ClaimRefused {
    /// The try was refused.
    Refused(TryFault),
    /// There is no memory to keep the claim.
    NoMemory,
}

/// The reason why a call that names a claim by its number was refused.
#[derive(Clone, Copy, Debug, PartialEq, Eq)]
pub enum NumberFault {
    /// No claim of this number is open.
    NoClaim,
    /// The bytes are not inside the claim's body.
    PutRange,
}

/// Aborts all claims of a producer, the youngest first.
fn abort_each<K: Kind, B: Bodies>(end: &mut ProducerEnd<K, B>, claims: &mut OpenClaims)
    requires { AreAllOpen end.old.capacity end.old.view (claims_in claims.old) }
    ensures none { claims_in claims.new ≡ [] }
    ensures open_claims { AreAllOpen end.new.capacity end.new.view (claims_in claims.new) }
    ensures aborted { Does (λ v _ w. w ≡ aborted_view (claims_in claims.old) v) end.old result end.new }
{
    while let Some(claim) = claims.pop() {
        end.abort(claim);
    }
}

impl<K: Kind, B: Bodies> NumberedEnd<K, B> {
    /// Keeps the claims of a producer, of which none is open.
    pub fn of(alloc: Global, end: ProducerEnd<K, B>) -> Self
        requires { open_count end.view.producer.claims ≡ 0 }
        ensures { result ≡ record { end = end; claims = [] } }
    {
        NumberedEnd {
            end,
            claims: OpenClaims::new(alloc),
        }
    }

    /// Writes a message, as `ProducerEnd::try_write` does.
    #[inline(always)]
    pub fn try_write(&mut self, type_id: i32, body: &[u8]) -> Result<(), TryFault>
        ensures sent { OfEnd (Sends type_id body.now) self.old result self.new }
        ensures does { OfEnd (Does (TriesWrite self.old.end.many self.old.end.capacity type_id body.now))
            self.old result self.new }
        ensures keeps { KeepsNumbered self.old self.new }
    {
        self.end.try_write(type_id, body)
    }

    /// Writes a message, as `ProducerEnd::write_alone` does.
    pub fn write_alone(&mut self, type_id: i32, body: &[u8]) -> Result<(), ClaimFault>
        requires { shares self.old.end ≡ all_shares }
        ensures sent { OfEnd (Sends type_id body.now) self.old result self.new }
        ensures does { OfEnd (Does (WritesAlone self.old.end.many self.old.end.capacity type_id body.now))
            self.old result self.new }
    {
        self.end.write_alone(type_id, body)
    }

    /// Returns the head and the tail, as `ProducerEnd::positions` does.
    pub fn positions(&mut self) -> Positions
        ensures { OfEnd (Does (LoadsThem self.old.end.capacity)) self.old result self.new }
    {
        self.end.positions()
    }

    /// Draws the ring's next correlation id.
    pub fn next_correlation_id(&mut self) -> u64
        ensures { OfEnd (Does DrawsId) self.old result self.new }
    {
        self.end.next_correlation_id()
    }

    /// Returns the consumer's heartbeat.
    pub fn heartbeat(&mut self) -> u64
        ensures { OfEnd (Does (LoadsHeartbeat self.old.end.capacity)) self.old result self.new }
    {
        self.end.heartbeat()
    }

    /// Claims room for a message by one try, and keeps the claim. The room to keep it is made first. Never waits.
    pub fn claim(&mut self, type_id: i32, len: usize) -> Result<Claimed, ClaimRefused>
        ensures sent { sent self.new.end ≡ sent self.old.end }
        ensures does { TriesToKeep type_id len self.old result self.new }
    {
        let Ok(()) = self.claims.reserve(self.end.open_claims()) else {
            return Err(ClaimRefused::NoMemory);
        };
        match self.end.try_claim(type_id, len) {
            Ok(claim) => {
                let claimed = Claimed {
                    number: claim.place(),
                    index: claim.index(),
                };
                self.claims.keep(claim);
                Ok(claimed)
            }
            Err(fault) => Err(ClaimRefused::Refused(fault)),
        }
    }

    /// Puts bytes into the open claim of this number, from the byte `offset` of its body on. After an error nothing has
    /// changed.
    pub fn put(&mut self, number: u64, offset: usize, bytes: &[u8]) -> Result<(), NumberFault>
        ensures sent { sent self.new.end ≡ sent self.old.end }
        ensures does { Puts number offset bytes.now self.old result self.new }
    {
        let (index, mut claim) = match self.claims.take(number) {
            Some((index, claim)) => (index, claim),
            None => return Err(NumberFault::NoClaim),
        };
        let put = self.end.put(&mut claim, offset, bytes);
        self.claims.put_back(index, claim);
        match put {
            Ok(()) => Ok(()),
            Err(_) => Err(NumberFault::PutRange),
        }
    }

    /// Commits the open claim of this number.
    pub fn commit(&mut self, number: u64) -> Result<(), NumberFault>
        ensures sent { SendsNumbered number self.old result self.new }
        ensures does { Settles Committed number self.old result self.new }
    {
        let claim = match self.claims.take(number) {
            Some((_, claim)) => claim,
            None => return Err(NumberFault::NoClaim),
        };
        self.end.commit(claim);
        Ok(())
    }

    /// Aborts the open claim of this number.
    pub fn abort(&mut self, number: u64) -> Result<(), NumberFault>
        ensures sent { sent self.new.end ≡ sent self.old.end }
        ensures does { Settles Aborted number self.old result self.new }
    {
        let claim = match self.claims.take(number) {
            Some((_, claim)) => claim,
            None => return Err(NumberFault::NoClaim),
        };
        self.end.abort(claim);
        Ok(())
    }

    /// Aborts all open claims, the youngest first.
    pub fn abort_open(&mut self)
        ensures { self.new
            ≡ record { end = record self.old.end { view = aborted_view self.old.claims self.old.end.view }; claims = [] } }
    {
        abort_each(&mut self.end, &mut self.claims);
    }

    /// Aborts all open claims, and returns the producer without them.
    pub fn into_end(mut self) -> ProducerEnd<K, B>
        ensures none { open_count result.view.producer.claims ≡ 0 }
        ensures aborted { result ≡ record self.end { view = aborted_view self.claims self.end.view } }
    {
        self.abort_open();
        let NumberedEnd { end, claims: _ } = self;
        end
    }

    /// Returns the producer without its ring. Claims that are open stay open for good.
    pub fn into_producer(self) -> Producer
        ensures { IsOfEnd self.end result }
    {
        let NumberedEnd { end, claims: _ } = self;
        end.into_producer()
    }

    /// Returns the bytes of the ring's buffer.
    pub fn capacity(&self) -> u32
        ensures { result ≡ self.now.end.capacity }
    {
        self.end.capacity()
    }

    /// Returns the number of shares of the ring that this producer holds.
    pub fn shares(&self) -> u32
        ensures { result ≡ shares self.now.end }
    {
        self.end.shares()
    }

    /// Returns the number of open claims.
    pub fn open_claims(&self) -> u64
        ensures { result ≡ open_count self.now.end.view.producer.claims }
    {
        self.end.open_claims()
    }

    /// Returns the number of ends and others that own the ring.
    pub fn owners(&self) -> usize {
        self.end.owners()
    }
}

impl<B: Bodies> NumberedEnd<ManyToOne, B> {
    /// Makes another producer of the same ring. Claims that are open stay with this one.
    pub fn split(&mut self, alloc: Global) -> Result<Self, SplitFault>
        ensures right { IfOk result (λ other. other
            ≡ record { end = record self.old.end { view = producer_alone self.old.end.view }; claims = [] }) }
        ensures left { OnOk result (self.new
            ≡ record self.old { end = record self.old.end { view = without_share self.old.end.view } }) }
        ensures refused { IfErr result (λ fault. (self.new ≡ self.old) × (fault ≡ OneShare → shares self.old.end ≡ 1)) }
        ensures spare { OnOk result (shares self.old.end ≢ 1) }
    {
        let end = self.end.split()?;
        Ok(NumberedEnd::of(alloc, end))
    }

    /// Joins another producer of the same ring to this one, with its shares and its open claims. If memory runs out, the
    /// other producer comes back, and both are unchanged.
    pub fn join(&mut self, other: Self) -> Result<(), Self>
        requires { AreOfOneTable self.old.end other.end }
        ensures joined { OnOk result (TakesIn self.old other self.new) }
        ensures refused { IfErr result (λ r. (self.new ≡ self.old) × (r ≡ other)) }
    {
        let NumberedEnd { end, mut claims } = other;
        let Ok(()) = self.claims.append(&mut claims) else {
            return Err(NumberedEnd { end, claims });
        };
        self.end.join(end);
        Ok(())
    }
}
