//! The promises of threads about what they return.
ghost use Rattle.std.specs.Prelude.{◌≡◌};
ghost use Rattle.ring_storm.specs.Storming.{HasConducted, HasWorked, IsClientOf, board_shares_of};

use crate::conductor::ConductorEnd;
use crate::plan::StormPlan;
use crate::seats::StormClient;
use ring_board::Board;
use ring_counters::CounterValues;
use ring_rings::{Bodies, ManyToOne, Ring};
use ring_service::Conductor;
use std::snapshot::Snapshot;
use std::thread::Promise;

/// States that a client comes back with its seats, and that each command that it counts had its reply.
#[derive_where(Clone, Copy)]
pub(crate) struct ClientBack<'a, B: Bodies> {
    pub(crate) ring: &'a Ring<ManyToOne, B>,
    pub(crate) board: &'a Board,
    pub(crate) plan: StormPlan,
    pub(crate) index: u32,
}

impl<'a, B: Bodies> Promise<StormClient> for ClientBack<'a, B> {
    ghost kept_by = { λ p r. IsClientOf p.ring.now p.board.now r × HasWorked p.plan.commands p.index r };
}

/// States that the conductor comes back with its shares, and has joined no receiver.
#[derive(Drop)]
pub(crate) struct ConductorBack<'a, B: Bodies> {
    pub(crate) ring: &'a Ring<ManyToOne, B>,
    pub(crate) board: &'a Board,
    pub(crate) values: &'a CounterValues,
    /// The conductor that was given to the thread.
    pub(crate) given: Snapshot<Conductor>,
    pub(crate) plan: StormPlan,
}

impl<'a, B: Bodies> Promise<ConductorEnd> for ConductorBack<'a, B> {
    ghost kept_by = { λ p r. HasConducted p.plan p.ring.now p.board.now p.values.now r
        × (board_shares_of r.conductor ≡ board_shares_of p.given.value) };
}
