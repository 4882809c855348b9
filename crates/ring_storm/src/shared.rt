//! The objects that all threads of a storm share.

use crate::plan::StormPlan;
use ring_board::Board;
use ring_counters::CounterValues;
use ring_rings::{Bodies, ManyToOne, Ring};
use std::sync::atomic::AtomicBool;
use std::sync::atomic::Ordering::SeqCst;

/// The objects that all threads of a storm share.
#[derive_where(Clone, Copy)]
pub(crate) struct Shared<'a, G, B: Bodies> {
    pub(crate) ring: &'a Ring<ManyToOne, B>,
    pub(crate) board: &'a Board,
    pub(crate) values: &'a CounterValues,
    pub(crate) gate: &'a G,
    /// Whether a thread gave up. Each wait tests this in each turn.
    pub(crate) stopped: &'a AtomicBool,
    pub(crate) plan: StormPlan,
}

impl<G, B: Bodies> Shared<'_, G, B> {
    /// Returns whether a thread gave up.
    pub(crate) fn is_stopped(&self) -> bool {
        self.stopped.load(SeqCst)
    }

    /// Stops all other threads.
    pub(crate) fn stop(&self) {
        self.stopped.store(true, SeqCst);
    }
}
