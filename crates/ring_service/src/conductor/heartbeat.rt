//! The heartbeat of the conductor.

ghost use Rattle.std.specs.Prelude.{◌≡◌};
ghost use Rattle.ring_table.specs.Views.{beaten, with_consumer};
ghost use Rattle.ring_service.specs.Conducting.{KeepsWhatItServes, consumer_of, ring_view};

use crate::conductor::Conductor;
use ring_rings::Heartbeat;

impl Conductor {
    /// Stores the ring's heartbeat, by one step. Clients load it with `Ring::heartbeat`, on other threads. The
    /// heartbeat is 0 before the first one is stored.
    ///
    /// The caller chooses the value, such as a time in milliseconds, and nothing here reads it. The thread that uses
    /// the conductor may make this call at any time between calls of `do_work`. The counters, the broadcast buffer, the
    /// joined receivers, and the received commands stay as they were.
    pub fn set_heartbeat<R: Heartbeat>(&mut self, ring: &R, value: u64)
        requires consumer { R.is_consumer ring.now (consumer_of self.old) }
        ensures consumer { R.is_consumer ring.now (consumer_of self.new) }
        ensures stored { ring_view self.new
            ≡ with_consumer (beaten value (ring_view self.old).consumer) (ring_view self.old) }
        ensures others { KeepsWhatItServes self.old self.new }
    {
        ring.set_heartbeat(&mut self.consumer, value);
    }
}
