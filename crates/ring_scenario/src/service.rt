//! The conductor's side of a run. It has a ring for commands, a broadcast buffer for replies, and counters.
ghost use Rattle.std.specs.Prelude.{◌≡◌, ◌+◌};
ghost use Rattle.ring_layout.specs.Refusals.{all_shares};
ghost use Rattle.ring_rings.specs.Seats.{open_claims_of, shares_of, IsConsumerOf, IsProducerOf};
ghost use Rattle.ring_service.specs.Conducting.{consumer_of, manager_in, transmitter_of, value_shares_of};
ghost use Rattle.ring_ends.specs.Held.{held_count, held_in};
ghost use Rattle.ring_ends.specs.Receivers.{by_number, shares_in, AreReceiversOf};
ghost use Rattle.ring_scenario.specs.Watchers.{AreWatchedBy};

mod closing;
mod listening;
mod making;
mod watching;
mod working;

pub use closing::Served;
use ring_board::{Board, CopyReceiver};
use ring_counters::{CounterValues, ValueReader};
use ring_ends::Numbered;
use ring_rings::{ManyToOneRing, Producer};
use ring_service::Conductor;

/// A conductor with its ring, its broadcast buffer and its counters. It also has the listeners to its replies, and the
/// watchers of the counters' values. Listeners are numbered from 1, and watchers are too. No number is given to two
/// listeners or to two watchers.
#[derive(Drop)]
pub struct CommandService {
    pub(crate) ring: ManyToOneRing,
    pub(crate) producer: Producer,
    board: Board,
    values: CounterValues,
    conductor: Conductor,
    listeners: Numbered<CopyReceiver>,
    /// The watchers that were not joined.
    watchers: Numbered<ValueReader>,
    ghost produces: { IsProducerOf ring producer },
    ghost consumes: { IsConsumerOf ring (consumer_of conductor) },
    ghost whole: { (open_claims_of producer ≡ 0) × (shares_of producer ≡ all_shares) },
    ghost listen: { AreReceiversOf board (by_number (transmitter_of conductor) listeners) },
    ghost shares: { shares_in (by_number (transmitter_of conductor) listeners) ≡ all_shares },
    ghost watch: { AreWatchedBy values (manager_in conductor) watchers },
    ghost value_shares: { value_shares_of conductor + held_count (held_in watchers) ≡ all_shares },
}
