//! The conductor at work, and the monitor of its counters.
ghost use Rattle.std.specs.Prelude.{◌≡◌};

use crossbeam_utils::Backoff;
use ring_ends::{ConductorEnd, ReaderEnd};
use ring_service::WorkStop;
use std::sync::Wait;
use std::sync::atomic::AtomicBool;
use std::sync::atomic::Ordering::SeqCst;

/// The number of counters.
pub const COUNTERS: u32 = 2;

/// The moment at which the conductor works, in milliseconds. The moment matters only for counters that are freed, and
/// here no counter is freed.
const NOW: u64 = 0;

/// Works until it is stopped and no command is left.
pub fn conduct<R: Wait>(rt: &R, stop: &AtomicBool, mut conductor: ConductorEnd) -> ConductorEnd
    ensures { result.shared ≡ conductor.shared }
{
    let backoff = Backoff::new();
    for _ in rt.forever() {
        // Look at this first, so that what was sent before the stop is still taken below.
        let is_last = stop.load(SeqCst);
        let work = conductor.do_work(NOW, u32::MAX);
        match work.stopped {
            // The end of the buffer is not the end of the commands. The next call goes on after it.
            WorkStop::Block | WorkStop::Limit => backoff.reset(),
            WorkStop::Unpublished if !is_last => backoff.snooze(),
            WorkStop::Unpublished | WorkStop::BoardEnd => return conductor,
        }
    }
    unreachable!()
}

/// Reads all values until it is stopped. Returns whether a value was ever below an earlier value of the same counter.
pub fn watch<R: Wait>(rt: &R, stop: &AtomicBool, mut reader: ReaderEnd) -> (ReaderEnd, bool)
    ensures { result.0.lender ≡ reader.lender }
{
    let mut latest = [0; COUNTERS as usize];
    let mut saw_fall = false;
    let backoff = Backoff::new();
    for _ in rt.forever() {
        for (id, value) in (0..COUNTERS).zip(latest.iter_mut()) {
            let now = reader.load(id).unwrap_or(i64::MIN);
            saw_fall |= now < *value;
            *value = now;
        }
        if stop.load(SeqCst) {
            return (reader, saw_fall);
        }
        backoff.snooze();
    }
    unreachable!()
}
