//! Single looks, and the conclusions from several looks.
use crate::fault::ShowFault;
use ring_report::{Report, Sight};
use std::rt::Clock;
use std::time::{Duration, Instant};

/// The number of milliseconds between a look that shows an open claim and the next look. A consumer is reported as
/// blocked only after this time. So a producer whose thread does not run for a moment is not reported.
pub const PAUSE: u64 = 250;

/// One look, and the time at which it was taken.
#[derive(Drop)]
pub struct Look {
    pub report: Report,
    pub begin: Instant,
    pub end: Instant,
}

/// Returns the time of a clock that never goes back. Returns `NoClock` if the clock cannot be read.
pub fn now(rt: &impl Clock) -> Result<Instant, ShowFault<'static>> {
    Instant::now(rt).or(Err(ShowFault::NoClock))
}

/// Returns a time in milliseconds.
pub fn millis(time: Duration) -> u64 {
    u64::try_from(time.as_millis()).unwrap_or(u64::MAX)
}

/// The state of a consumer that a look showed as stopped, and the time at which that look ended.
#[derive(Clone, Copy)]
struct Seen {
    sight: Sight,
    at: Instant,
}

/// The conclusion from the looks so far about the consumer of a ring. It has the time from which on the consumer
/// stopped at the same record with the same head.
#[derive(Clone, Copy)]
pub struct Watch {
    seen: Option<Seen>,
}

impl Watch {
    /// Returns a conclusion from no looks.
    pub fn new() -> Watch {
        Watch { seen: None }
    }

    /// Tests whether a look shows a consumer that stops, and no earlier look showed the same.
    pub fn is_news(&self, look: &Look) -> bool {
        match (look.report.sight(), self.seen) {
            (Some(sight), Some(seen)) => sight != seen.sight,
            (Some(_), None) => true,
            (None, _) => false,
        }
    }

    /// Notes a look. If an earlier look showed the same state, returns for how many milliseconds the consumer was
    /// blocked. The time is from the end of the first such look to the begin of this one. A look is ignored if the
    /// positions changed all the time.
    fn blocked_ms(&mut self, report: &Report, begin: Instant, end: Instant) -> Option<u64> {
        let Some(sight) = report.sight() else {
            if report.is_settled {
                self.seen = None;
            }
            return None;
        };
        if let Some(seen) = self.seen {
            if seen.sight == sight {
                return Some(millis(begin.duration_since(seen.at)));
            }
        }
        self.seen = Some(Seen { sight, at: end });
        None
    }

    /// Notes a look. If the consumer was blocked, notes in the look's report for how long.
    pub fn note(&mut self, look: &mut Look) {
        if let Some(blocked) = self.blocked_ms(&look.report, look.begin, look.end) {
            if blocked >= PAUSE {
                look.report.note_blocked(blocked);
            }
        }
    }
}
