//! A conductor with all that belongs to it.
ghost use Rattle.std.specs.Prelude.{◌≡◌, ◌≤◌, ◌^◌, [], Err, IfOk, IsOkUnless, MatchOption, MatchResult, None, Some};
ghost use Rattle.ring_layout.specs.Lists.{Begins};
ghost use Rattle.ring_rings.specs.Ring.{sent};
ghost use Rattle.ring_service.specs.{Conducting.manager_in, Finishing.joined_by, Finishing.replies_of};
ghost use Rattle.ring_service.specs.Service.{received_by, Serves};
ghost use Rattle.ring_ends.specs.Conducting.{sizes_refusal, Beats, IsNew, TakesCommands};
ghost use Rattle.ring_ends.specs.declared.conductor.ConductorFault.TheVariants.{OutOfMemory};

use crate::lending::Shared;
use ring_board::Board;
use ring_counters::CountersManager;
use ring_layout::counter_descriptor::MAX_COUNTERS;
use ring_layout::{ALL_SHARES, is_board_capacity, is_capacity};
use ring_rings::{PlainManyToOneRing, Producer};
use ring_service::{Conductor, Work};
use std::alloc::Global;
use std::marker::Model;
use std::sync::Arc;
use thiserror::Error;

/// The sizes that a conductor is made with.
#[derive(Clone, Copy)]
pub struct Sizes {
    /// The bytes of the ring for the commands.
    pub capacity: u32,
    /// The bytes of the broadcast buffer for the replies.
    pub replies: u32,
    pub counters: u32,
    /// The milliseconds after which the id of a freed counter may be allocated again.
    pub reuse_ms: u32,
}

/// The reason why no conductor was made.
#[derive(Clone, Copy, Debug, PartialEq, Eq, Error)]
pub enum ConductorFault {
    /// The ring or the broadcast buffer may not have its capacity.
    #[error("BadCapacity")]
    BadCapacity,
    /// The number of counters is 0 or above 4,096.
    #[error("BadCount")]
    BadCount,
    /// Out of memory.
    #[error("OutOfMemory")]
    OutOfMemory,
}

impl Sizes {
    /// Tests whether ring, broadcast buffer and counters may have these sizes.
    fn test(self) -> Result<(), ConductorFault>
        ensures { MatchResult result (λ _. sizes_refusal self.capacity self.replies self.counters ≡ None)
            (λ fault. sizes_refusal self.capacity self.replies self.counters ≡ Some fault) }
    {
        if !is_capacity(self.capacity) || !is_board_capacity(self.replies) {
            return Err(ConductorFault::BadCapacity);
        }
        if self.counters == 0 || self.counters > MAX_COUNTERS {
            return Err(ConductorFault::BadCount);
        }
        Ok(())
    }
}

/// A conductor, with its ring, its broadcast buffer and its values, and with the producer that those of clients are
/// split from.
#[derive(Drop)]
pub struct ConductorEnd {
    pub(crate) shared: Arc<Shared>,
    pub(crate) conductor: Conductor,
    pub(crate) producer: Producer,
    /// How many shares of the broadcast buffer are not with receivers.
    pub(crate) shares: u32,
}

impl Model for ConductorEnd {
    ghost use Rattle.std.specs.Prelude.{◌≡◌};
    ghost use Rattle.std.specs.Arc.{arc_value};
    ghost use Rattle.ring_rings.specs.Seats.{open_claims_of, IsConsumerOf, IsProducerOf};
    ghost use Rattle.ring_board.specs.Seats.{shares_of as board_shares_of};
    ghost use Rattle.ring_service.specs.Conducting.{transmitter_of, IsConductorOf};
    ghost use Rattle.ring_ends.specs.Conducting.{conductor_code, SeatedConductor};

    ghost Value = { SeatedConductor };

    ghost coded = { conductor_code };

    ghost view = { λ e. record {
      shared = arc_value e.shared;
      conductor = e.conductor;
      producer = e.producer;
    } };

    ghost invariant = { λ e. IsConductorOf IsConsumerOf (arc_value e.shared).ring (arc_value e.shared).board
        (arc_value e.shared).values e.conductor × IsProducerOf (arc_value e.shared).ring e.producer
        × (open_claims_of e.producer ≡ 0) × (e.shares ≡ board_shares_of (transmitter_of e.conductor)) };
}

impl ConductorEnd {
    /// Makes a conductor of these sizes, to which nothing was sent. The sizes are tested before memory is taken.
    pub fn new(alloc: Global, sizes: Sizes) -> Result<ConductorEnd, ConductorFault>
        ensures empty { IfOk result (λ made. (sent made.producer ≡ []) × (received_by made.conductor ≡ [])
            × (replies_of made.conductor ≡ [])) }
        ensures made { IfOk result (IsNew sizes.capacity sizes.replies sizes.counters sizes.reuse_ms) }
        ensures refused { MatchOption (sizes_refusal sizes.capacity sizes.replies sizes.counters)
            (IsOkUnless result OutOfMemory) (λ fault. result ≡ Err fault) }
    {
        sizes.test()?;
        let Ok((ring, producer, consumer)) = PlainManyToOneRing::new(alloc, sizes.capacity) else {
            return Err(ConductorFault::OutOfMemory);
        };
        let Ok((board, transmitter)) = Board::new(alloc, sizes.replies) else {
            return Err(ConductorFault::OutOfMemory);
        };
        let Ok((values, counters)) = CountersManager::new(alloc, sizes.counters, sizes.reuse_ms)
        else {
            return Err(ConductorFault::OutOfMemory);
        };
        let shared = Shared {
            ring,
            board,
            values,
        };
        let Ok(shared) = Arc::new(alloc, shared) else {
            return Err(ConductorFault::OutOfMemory);
        };
        Ok(ConductorEnd {
            shared,
            conductor: Conductor::new(consumer, transmitter, counters),
            producer,
            shares: ALL_SHARES,
        })
    }

    /// Takes at most `limit` commands at the moment `now`, which is at most 2^62 milliseconds. Each one is applied to
    /// the counters, and gets one reply.
    pub fn do_work(&mut self, now: u64, limit: u32) -> Work
        requires { now ≤ 2 ^ 62 }
        ensures serves { Serves now self.old.conductor self.new.conductor result.messages }
        ensures takes { TakesCommands now limit self.old result self.new }
        ensures grows { Begins (replies_of self.old.conductor) (replies_of self.new.conductor) }
        ensures heard { joined_by self.new.conductor ≡ joined_by self.old.conductor }
    {
        let shared: &Shared = &self.shared;
        self.conductor
            .do_work(&shared.ring, &shared.board, &shared.values, now, limit)
    }

    /// Stores the heartbeat that clients load.
    pub fn set_heartbeat(&mut self, value: u64)
        ensures { Beats value self.old self.new }
    {
        self.conductor.set_heartbeat(&self.shared.ring, value);
    }

    /// Returns the counters, which answer all that can be asked of them.
    pub fn counters(&self) -> &CountersManager
        ensures { result.now ≡ manager_in self.now.conductor }
    {
        self.conductor.counters()
    }
}
