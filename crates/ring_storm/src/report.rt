//! The report of a storm.
ghost use Rattle.std.specs.Prelude.{◌≡◌, ◌≤◌, List, length};
ghost use Rattle.ring_layout.specs.{declared.message.Claim.Claim, History.committed_of};
ghost use Rattle.ring_words.specs.{Drain.AllSettled, Ring.Has};
ghost use Rattle.ring_counters.specs.{Manager.registry_of, Registry.count_of, Registry.live_of};
ghost use Rattle.ring_storm.specs.Storming.{sum_of};

use crate::plan::StormReport;
use ring_counters::CountersManager;
use ring_service::Finished;
use std::snapshot::Snapshot;

/// Returns the number of counters in use, and the sum of their values.
fn count_live(counters: &CountersManager) -> (u32, i64)
    requires few { count_of (registry_of counters.now) ≤ 64 }
    ensures live { result.0 ≡ length (live_of (registry_of counters.now)) }
    ensures sum { result.1 ≡ sum_of (live_of (registry_of counters.now)) }
{
    let mut live = 0u32;
    let mut sum = 0i64;
    for counter in counters.iter() {
        live += 1;
        sum = sum.saturating_add(counter.value());
    }
    (live, sum)
}

/// Returns the report of a storm in which this many replies came to their clients.
pub(crate) fn report(finished: Finished, seen: u64) -> StormReport
    requires few { count_of (registry_of finished.counters) ≤ 64 }
    ensures received { (result.received ≡ finished.received) × (result.seen ≡ seen) }
    ensures left { (h : List Claim) → Has finished.rest h → AllSettled h → result.left ≡ length (committed_of h) }
    ensures live { result.live ≡ length (live_of (registry_of finished.counters)) }
    ensures sum { result.sum ≡ sum_of (live_of (registry_of finished.counters)) }
    ensures finished { result.finished.value ≡ finished }
{
    let named = Snapshot::of(&finished);
    let Finished {
        mut rest,
        board: _,
        values: _,
        counters,
        received,
        ..
    } = finished;
    let (live, sum) = count_live(&counters);
    StormReport {
        received,
        left: u64::from(rest.drain()),
        seen,
        live,
        sum,
        finished: named,
    }
}
