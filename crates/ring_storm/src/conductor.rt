//! The conductor of a storm.
ghost use Rattle.std.specs.Prelude.{◌≡◌, ◌+◌, ◌≤◌, IsTrue};
ghost use Rattle.ring_storm.specs.Storming.{HasCounters, IsConductorAt, IsPlan, KeepsReceivers, all_commands, taken_by};

use crate::shared::Shared;
use crossbeam_utils::Backoff;
use ring_rings::Bodies;
use ring_service::{Conductor, WorkStop};

/// The conductor after its work.
#[derive(Drop)]
pub(crate) struct ConductorEnd {
    pub(crate) conductor: Conductor,
    /// Whether the conductor took all commands.
    pub(crate) is_done: bool,
}

impl<G, B: Bodies> Shared<'_, G, B> {
    /// Works until a command comes. Returns the number of commands that came, or 0 if none came.
    fn work(&self, conductor: &mut Conductor) -> u64
        requires conductor { IsConductorAt self.now conductor.old }
        requires counters { HasCounters self.now.plan conductor.old }
        ensures conductor { IsConductorAt self.now conductor.new }
        ensures counters { HasCounters self.now.plan conductor.new }
        ensures receivers { KeepsReceivers conductor.old conductor.new }
        ensures taken { taken_by conductor.new ≡ taken_by conductor.old + result }
    {
        let backoff = Backoff::new();
        for _ in 0..self.plan.turns {
            if self.is_stopped() {
                return 0;
            }
            let work = conductor.do_work(self.ring, self.board, self.values, 0, u32::MAX);
            if work.messages > 0 {
                return work.messages;
            }
            // If the read stopped at the end of the buffer, the next commands are after it.
            if work.stopped != WorkStop::Block {
                backoff.snooze();
            }
        }
        0
    }

    /// Works until all commands are taken. A conductor that gives up stops all other threads. A test shows this, and no
    /// clause says it.
    pub(crate) fn run_conductor(&self, mut conductor: Conductor) -> ConductorEnd
        requires plan { IsPlan self.now.plan }
        requires conductor { IsConductorAt self.now conductor }
        requires counters { HasCounters self.now.plan conductor }
        ensures conductor { IsConductorAt self.now result.conductor }
        ensures counters { HasCounters self.now.plan result.conductor }
        ensures receivers { KeepsReceivers conductor result.conductor }
        ensures done { IsTrue result.is_done → all_commands self.now.plan ≤ taken_by result.conductor }
    {
        let all = u64::from(self.plan.all_commands());
        let mut received = 0;
        for _ in 0..all {
            if received >= all {
                break;
            }
            let messages = self.work(&mut conductor);
            if messages == 0 {
                self.stop();
                break;
            }
            received += messages;
        }
        ConductorEnd {
            conductor,
            is_done: received >= all,
        }
    }
}
