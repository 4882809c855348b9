//! The watchers of the counters' values.
ghost use Rattle.std.specs.Prelude.{◌≡◌, ◌<◌, ◌↔◌, IfNone, IfOk, IfSome, IsOk, OnErr, OnSome};
ghost use Rattle.ring_layout.specs.Refusals.{all_shares};
ghost use Rattle.ring_counters.specs.Manager.{writes_of};
ghost use Rattle.ring_counters.specs.{Seats.values_count, declared.values.seats.ValueReader.ValueReader};
ghost use Rattle.ring_service.specs.Conducting.{manager_in, value_shares_of, KeepsAllCounters};
ghost use Rattle.ring_ends.specs.Held.{IsFree, IsHeld, held_in};
ghost use Rattle.ring_scenario.specs.Keeping.{KeepsButWatchers, KeepsRing};
ghost use Rattle.ring_scenario.specs.Watchers.{Peeks, Unwatches, Watches};

use super::CommandService;
use ring_counters::{BadId, NoShares};
use std::alloc::AllocError;

impl CommandService {
    /// Makes a watcher and returns its number. The room for the watcher is made first. Returns `NoShares` if only one
    /// share of the values is left.
    pub fn watch(&mut self) -> Result<Result<usize, NoShares>, AllocError>
        ensures made { IfOk result (λ made. IfOk made (λ number.
            Watches (writes_of (manager_in self.old.conductor)) self.old.watchers number self.new.watchers)) }
        ensures same { IfOk result (λ made. OnErr made ((self.new.conductor ≡ self.old.conductor)
            × (held_in self.new.watchers ≡ held_in self.old.watchers))) }
        ensures enough { IfOk result (λ made. IsOk made ↔ (1 < value_shares_of self.old.conductor)) }
        ensures keeps { KeepsAllCounters self.new.values self.old.conductor self.new.conductor }
        ensures rest { KeepsButWatchers self.old self.new }
    {
        self.watchers.reserve()?;
        match self.conductor.value_reader(&self.values) {
            Ok(watcher) => Ok(Ok(self.watchers.hold(watcher))),
            Err(fault) => Ok(Err(fault)),
        }
    }

    /// Loads the value of an id for the watcher of this number. Returns `None` if there is no such watcher. Nothing has
    /// then changed. Returns `BadId` if the id is not below the number of counters.
    pub fn peek(&mut self, number: usize, id: u32) -> Option<Result<i64, BadId>>
        ensures in_range { IfSome result (λ loaded. IsOk loaded ↔ (id < values_count self.old.values)) }
        ensures loaded { IfSome result (λ loaded. IfOk loaded (λ value.
            Peeks id value self.old.watchers number self.new.watchers)) }
        ensures refused { IfSome result (λ loaded. OnErr loaded
            (held_in self.new.watchers ≡ held_in self.old.watchers)) }
        ensures none { IfNone result (IsFree (held_in self.old.watchers) number
            × (held_in self.new.watchers ≡ held_in self.old.watchers)) }
        ensures here { OnSome result ((watcher : ValueReader) × IsHeld (held_in self.old.watchers) number watcher) }
        ensures conductor { self.new.conductor ≡ self.old.conductor }
        ensures rest { KeepsButWatchers self.old self.new }
    {
        let mut watcher = self.watchers.take(number)?;
        let loaded = self.values.load(&mut watcher, id);
        self.watchers.put_back(number, watcher);
        Some(loaded)
    }

    /// Joins the watcher of this number. Returns `None` if there is no such watcher.
    pub fn unwatch(&mut self, number: usize) -> Option<()>
        ensures left { OnSome result (Unwatches self.old.watchers number self.new.watchers) }
        ensures same { IfNone result (held_in self.new.watchers ≡ held_in self.old.watchers) }
        ensures free { IfNone result (IsFree (held_in self.old.watchers) number) }
        ensures keeps { KeepsAllCounters self.new.values self.old.conductor self.new.conductor }
        ensures rest { KeepsButWatchers self.old self.new }
    {
        let watcher = self.watchers.take(number)?;
        self.conductor.join_value_reader(&self.values, watcher);
        Some(())
    }

    /// Joins all watchers, in rising order of their numbers. The counters have all shares of the values afterwards.
    pub(super) fn join_watchers(&mut self)
        ensures shares { value_shares_of self.new.conductor ≡ all_shares }
        ensures keeps { KeepsAllCounters self.new.values self.old.conductor self.new.conductor }
        ensures ring { KeepsRing self.old self.new }
    {
        for index in 0..self.watchers.drawn() {
            let _ = self.unwatch(index + 1);
        }
    }
}
