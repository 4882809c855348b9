//! What one run of a measurement does.

/// What is done over and over for as long as is measured.
#[derive(Clone, Copy, PartialEq, Eq)]
pub enum Job {
    /// A message is written and read by one thread.
    Batches,
    /// A message goes from a producer to the consumer.
    Flow,
    /// A command goes to the conductor, and its reply comes back.
    Trips,
    /// A message is transmitted.
    Broadcast,
    /// A counter is set.
    Sets,
    /// A counter is read.
    Gets,
    /// A counter is allocated and freed.
    Cycles,
    /// A counter is set while two threads read it.
    WatchedSets,
    /// Each client sends a command and waits for its reply.
    Storm,
}

impl Job {
    /// What its time is called in a reply.
    pub fn metric(self) -> &'static str {
        match self {
            Job::Batches | Job::Flow | Job::Broadcast | Job::Storm => "ns",
            Job::Trips => "mean",
            Job::Sets => "set",
            Job::Gets => "get",
            Job::Cycles => "alloc_free",
            Job::WatchedSets => "set_watched",
        }
    }

    /// How often a run does it at least and at most.
    pub fn limits(self) -> (u64, u64) {
        match self {
            Job::Batches | Job::Flow | Job::Broadcast => (2_000, 50_000_000),
            Job::Trips => (500, 1_000_000),
            Job::Sets | Job::Gets => (4_096, 100_000_000),
            Job::Cycles => (4_096, 10_000_000),
            Job::WatchedSets => (4_096, 50_000_000),
            Job::Storm => (50, 10_000),
        }
    }
}
