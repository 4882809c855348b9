//! The conductor's work, and the calls that read its counters.
ghost use Rattle.std.specs.Prelude.{◌≡◌, IfOk};
ghost use Rattle.ring_counters.specs.{Infos.AreInfos, Manager.registry_of};
ghost use Rattle.ring_counters.specs.Registry.{answer, counter_at, id_refusal_of, live_of};
ghost use Rattle.ring_service.specs.Conducting.{Works, manager_in, ledger_of, ring_view};
ghost use Rattle.ring_scenario.specs.Keeping.{KeepsButConductor};

use super::CommandService;
use crate::lines::Moment;
use ring_counters::{CounterInfo, IdFault, OutOfMemory};
use ring_service::Work;
use std::alloc::Global;

impl CommandService {
    /// Lets the conductor take at most `limit` commands at a moment, as `Conductor::do_work` does.
    pub fn work(&mut self, now: Moment, limit: u32) -> Work
        ensures works { Works now.ms limit (ring_view self.old.conductor) (ring_view self.new.conductor)
            (ledger_of self.old.conductor) (ledger_of self.new.conductor) result }
        ensures rest { KeepsButConductor self.old self.new }
    {
        self.conductor
            .do_work(&self.ring, &self.board, &self.values, now.ms(), limit)
    }

    /// Lists the counters in use, by rising id. Returns `OutOfMemory` if memory runs out.
    pub fn live(&self, alloc: Global) -> Result<Vec<CounterInfo>, OutOfMemory>
        ensures { IfOk result (λ infos. AreInfos infos.items (live_of (registry_of (manager_in self.now.conductor)))) }
    {
        self.conductor.counters().live(alloc)
    }

    /// Returns the owner of a counter in use, or 0 if the counter has no owner. Returns `BadId` if the id is not below
    /// the number of counters, and `NotAllocated` if no counter in use has the id.
    pub fn owner(&self, id: u32) -> Result<u64, IdFault>
        ensures { result ≡ answer (id_refusal_of (registry_of (manager_in self.now.conductor)) id)
            (counter_at (registry_of (manager_in self.now.conductor)) id).values.owner }
    {
        self.conductor.counters().owner(id)
    }
}
