//! A producer with its ring.
ghost use Rattle.std.specs.Prelude.{◌≡◌, ◌≤◌, ◌+◌, ◌<◌, ◌↔◌, length, replicate, IfOk, IsTrue, OnOk, is_err};
ghost use Rattle.ring_layout.specs.declared.message.ClaimState.TheVariants.{Aborted, Committed};
ghost use Rattle.ring_layout.specs.{declared.message.Message.Message, History.overwritten, Refusals.all_shares};
ghost use Rattle.ring_table.specs.{declared.claim.Stage.TheVariants.Stored, Changes.staged, OpenClaims.open_count};
ghost use Rattle.ring_table.specs.{ProducerSteps.with_changed, ServiceSteps.DrawsId, ServiceSteps.LoadsHeartbeat};
ghost use Rattle.ring_rings.specs.{Bodies.PutsBytes, Ring.message, Ring.SendsClaimedAt};
ghost use Rattle.ring_rings.specs.Seats.{KeepsAllBut, KeepsHeld, OpensAt, OpensNoneAt};
ghost use Rattle.ring_ends.specs.End.{sent, shares, Does, Either, HasMessage, IsOpenIn, KeepsClaims, LoadsThem, Sends, TriesClaim, TriesWrite, WritesAlone};

use ring_rings::{Bodies, Claim, ClaimFault, Kind, Positions, Producer, PutRange, Ring, TryFault};
use std::marker::Model;
use std::sync::Arc;

/// A producer, with the ring that it writes into.
#[derive(Drop)]
pub struct ProducerEnd<K: Kind, B: Bodies> {
    pub(crate) ring: Arc<Ring<K, B>>,
    pub(crate) producer: Producer,
}

impl<K: Kind, B: Bodies> Model for ProducerEnd<K, B> {
    ghost use Rattle.std.specs.Arc.{arc_value};
    ghost use Rattle.ring_rings.specs.Seats.{capacity_of, start_of, view_of, IsProducerOf, MayClaim};
    ghost use Rattle.ring_ends.specs.End.{End};

    ghost Value = { End };

    ghost view = { λ e. record {
      many = K.many;
      table = (arc_value e.ring).table.shared.table_id;
      capacity = capacity_of (arc_value e.ring);
      start = start_of (arc_value e.ring);
      view = view_of e.producer;
    } };

    ghost invariant = { λ e. IsProducerOf (arc_value e.ring) e.producer × MayClaim K.many e.producer };
}

impl<K: Kind, B: Bodies> ProducerEnd<K, B> {
    ghost use Rattle.std.specs.Arc.{arc_value};
    ghost use Rattle.ring_rings.specs.Seats.{capacity_of, start_of, view_of, IsProducerOf, MayClaim};
    ghost use Rattle.ring_ends.specs.End.{IsOfEnd};

    /// Writes a message, by one try. It never waits.
    #[inline(always)]
    pub fn try_write(&mut self, type_id: i32, body: &[u8]) -> Result<(), TryFault>
        ensures sent { Sends type_id body.now self.old result self.new }
        ensures does { Does (TriesWrite self.old.many self.old.capacity type_id body.now) self.old result self.new }
        ensures keeps { OpensNoneAt self.old.capacity self.old.view self.new.view }
    {
        self.ring.try_write(&mut self.producer, type_id, body)
    }

    /// Writes a message of a producer that holds all shares, so that no other producer contends. Never waits. Returns
    /// the errors of `try_write` except `Contended`.
    #[inline(always)]
    pub fn write_alone(&mut self, type_id: i32, body: &[u8]) -> Result<(), ClaimFault>
        requires { shares self.old ≡ all_shares }
        ensures sent { Sends type_id body.now self.old result self.new }
        ensures does { Does (WritesAlone self.old.many self.old.capacity type_id body.now) self.old result self.new }
        ensures keeps { OpensNoneAt self.old.capacity self.old.view self.new.view }
    {
        match self.try_write(type_id, body) {
            Ok(()) => Ok(()),
            Err(TryFault::Refused(fault)) => Err(fault),
            Err(TryFault::Contended { .. }) => unreachable!(),
        }
    }

    /// Claims room for a message of `len` bytes, by one try. It never waits.
    pub fn try_claim(&mut self, type_id: i32, len: usize) -> Result<Claim, TryFault>
        ensures sent { sent self.new ≡ sent self.old }
        ensures message { IfOk result (λ t. HasMessage self.new t.place (message type_id (replicate len 0))) }
        ensures does { Does (TriesClaim self.old.many self.old.capacity type_id len) self.old result self.new }
        ensures opened { IfOk result (OpensAt self.old.capacity self.old.view self.new.view) }
        ensures keeps { KeepsHeld self.old.capacity self.old.view self.new.view }
    {
        self.ring.try_claim(&mut self.producer, type_id, len)
    }

    /// Puts bytes into an open claim, from the byte `offset` of its body on. It refuses bytes that are not inside the
    /// body, and then nothing is changed.
    pub fn put(&mut self, claim: &mut Claim, offset: usize, bytes: &[u8]) -> Result<(), PutRange>
        requires { IsOpenIn self.old claim.old }
        ensures sent { sent self.new ≡ sent self.old }
        ensures refused { IsTrue (is_err result) ↔ (claim.old.len < offset + length bytes.now) }
        ensures message { OnOk result ((m : Message) → HasMessage self.old claim.old.place m
            → HasMessage self.new claim.old.place (message m.type_id (overwritten offset bytes.now m.body))) }
        ensures does { Does (Either (λ v _ w. PutsBytes claim.old.place offset bytes.now v w) (λ v _ w. w ≡ v))
            self.old result self.new }
        ensures claim { (claim.new ≡ claim.old) × IsOpenIn self.new claim.new }
        ensures others { KeepsAllBut self.old.capacity claim.old.place self.old.view self.new.view }
    {
        self.ring.put(&mut self.producer, claim, offset, bytes)
    }

    /// Settles an open claim: the consumer is shown its message.
    pub fn commit(&mut self, claim: Claim)
        requires { IsOpenIn self.old claim }
        ensures sent { SendsClaimedAt claim.place self.old.view self.new.view }
        ensures does { Does (λ v r w. w ≡ with_changed claim.place (staged (Stored Committed)) v)
            self.old result self.new }
        ensures others { KeepsAllBut self.old.capacity claim.place self.old.view self.new.view }
    {
        self.ring.commit(&mut self.producer, claim);
    }

    /// Settles an open claim: the consumer passes it.
    pub fn abort(&mut self, claim: Claim)
        requires { IsOpenIn self.old claim }
        ensures sent { sent self.new ≡ sent self.old }
        ensures does { Does (λ v r w. w ≡ with_changed claim.place (staged (Stored Aborted)) v)
            self.old result self.new }
        ensures others { KeepsAllBut self.old.capacity claim.place self.old.view self.new.view }
    {
        self.ring.abort(&mut self.producer, claim);
    }

    /// Draws the ring's next correlation id.
    pub fn next_correlation_id(&mut self) -> u64
        ensures sent { sent self.new ≡ sent self.old }
        ensures does { Does DrawsId self.old result self.new }
        ensures keeps { KeepsClaims self.old self.new }
    {
        self.ring.next_correlation_id(&mut self.producer)
    }

    /// Loads the consumer's heartbeat.
    pub fn heartbeat(&mut self) -> u64
        ensures sent { sent self.new ≡ sent self.old }
        ensures does { Does (LoadsHeartbeat self.old.capacity) self.old result self.new }
        ensures keeps { KeepsClaims self.old self.new }
    {
        self.ring.heartbeat(&mut self.producer)
    }

    /// Loads the head, and then the tail, which is not below it.
    pub fn positions(&mut self) -> Positions
        ensures sent { sent self.new ≡ sent self.old }
        ensures order { result.head ≤ result.tail }
        ensures does { Does (LoadsThem self.old.capacity) self.old result self.new }
        ensures keeps { KeepsClaims self.old self.new }
    {
        self.ring.positions(&mut self.producer)
    }

    /// Returns the number of shares of the ring that it holds.
    pub fn shares(&self) -> u32
        ensures { result ≡ shares self.now }
    {
        self.producer.shares()
    }

    /// Returns the number of its claims that are open.
    pub fn open_claims(&self) -> u64
        ensures { result ≡ open_count self.now.view.producer.claims }
    {
        self.producer.open_claims()
    }

    /// Puts a producer and its ring together.
    pub fn of(ring: Arc<Ring<K, B>>, producer: Producer) -> Self
        requires producer { IsProducerOf (arc_value ring) producer }
        requires sole { MayClaim K.many producer }
        ensures { result ≡ record {
          many = K.many;
          table = (arc_value ring).table.shared.table_id;
          capacity = capacity_of (arc_value ring);
          start = start_of (arc_value ring);
          view = view_of producer;
        } }
    {
        ProducerEnd { ring, producer }
    }

    /// Returns the producer without its ring.
    pub fn into_producer(self) -> Producer
        ensures { IsOfEnd self result }
    {
        let ProducerEnd { ring: _, producer } = self;
        producer
    }

    /// Returns the bytes of the ring's buffer.
    pub fn capacity(&self) -> u32
        ensures { result ≡ self.now.capacity }
    {
        self.ring.capacity()
    }

    /// Returns the number of ends and others that own the ring.
    pub fn owners(&self) -> usize {
        Arc::strong_count(&self.ring)
    }
}
