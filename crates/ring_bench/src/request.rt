//! What is asked for: a contender in a workload, and the sizes.
use crate::fault::Fault;
use crate::job::Job;

/// What is measured.
#[derive(Clone, Copy, PartialEq, Eq)]
pub enum Workload {
    /// One thread writes a batch of messages and reads it.
    Batches,
    /// The same with bodies of which every other word is 0.
    Sparse,
    /// One producer and one consumer, each on a thread.
    Pair,
    /// Several producers and one consumer, each on a thread.
    Crowd,
    /// A client sends commands, one after another, and waits for each reply of a conductor on another thread.
    Trips,
    /// One transmitter and its receivers, each on a thread.
    Broadcast,
    /// Counters are set, read, allocated and freed.
    Counters,
    /// Clients send commands to a conductor, all on threads of their own, and each waits for every reply.
    Storm,
}

impl Workload {
    /// Its name in requests.
    pub fn name(self) -> &'static str {
        match self {
            Workload::Batches => "batches",
            Workload::Sparse => "sparse",
            Workload::Pair => "pair",
            Workload::Crowd => "producers",
            Workload::Trips => "trips",
            Workload::Broadcast => "broadcast",
            Workload::Counters => "counters",
            Workload::Storm => "storm",
        }
    }

    /// What is run for it, one after another.
    pub fn jobs(self) -> &'static [Job] {
        match self {
            Workload::Batches | Workload::Sparse => &[Job::Batches],
            Workload::Pair | Workload::Crowd => &[Job::Flow],
            Workload::Trips => &[Job::Trips],
            Workload::Broadcast => &[Job::Broadcast],
            Workload::Counters => &[Job::Sets, Job::Gets, Job::Cycles, Job::WatchedSets],
            Workload::Storm => &[Job::Storm],
        }
    }
}

/// What is compared with others.
#[derive(Clone, Copy, PartialEq, Eq)]
pub enum Contender {
    /// The ring of one owner.
    Solo,
    /// The ring of one producer.
    OneToOne,
    /// The ring of many producers.
    ManyToOne,
    /// The ring of one producer with bodies in plain memory.
    PlainOneToOne,
    /// The ring of many producers with bodies in plain memory.
    PlainManyToOne,
    /// The plain ring of one producer, of which a read takes one message.
    OneToOneSingle,
    /// The plain ring of many producers, of which a read takes one message.
    ManyToOneSingle,
    /// The plain ring of one producer, into which 16 messages are written by one call.
    OneToOneBatch,
    /// The plain ring of many producers, into which 16 messages are written by one call.
    ManyToOneBatch,
    /// The broadcast buffer.
    Board,
    /// Counters and their manager.
    Counters,
    /// Clients and a conductor, with all that they share.
    Storm,
}

impl Contender {
    /// Its name in requests.
    pub fn name(self) -> &'static str {
        match self {
            Contender::Solo => "ours-solo",
            Contender::OneToOne => "ours-o2o",
            Contender::ManyToOne => "ours-m2o",
            Contender::PlainOneToOne => "plain-o2o",
            Contender::PlainManyToOne => "plain-m2o",
            Contender::OneToOneSingle => "plain-o2o-single",
            Contender::ManyToOneSingle => "plain-m2o-single",
            Contender::OneToOneBatch => "plain-o2o-batch",
            Contender::ManyToOneBatch => "plain-m2o-batch",
            Contender::Board => "ours-board",
            Contender::Counters => "ours-counters",
            Contender::Storm => "ours-storm",
        }
    }

    /// The messages that a read may take.
    pub fn limit(self) -> u32 {
        match self {
            Contender::OneToOneSingle | Contender::ManyToOneSingle => 1,
            _ => 64,
        }
    }
}

/// Who takes part in which workload.
pub static ENTRIES: [(Workload, Contender); 33] = [
    (Workload::Batches, Contender::Solo),
    (Workload::Batches, Contender::OneToOne),
    (Workload::Batches, Contender::ManyToOne),
    (Workload::Batches, Contender::PlainOneToOne),
    (Workload::Batches, Contender::PlainManyToOne),
    (Workload::Batches, Contender::OneToOneSingle),
    (Workload::Batches, Contender::ManyToOneSingle),
    (Workload::Batches, Contender::OneToOneBatch),
    (Workload::Batches, Contender::ManyToOneBatch),
    (Workload::Sparse, Contender::Solo),
    (Workload::Sparse, Contender::OneToOne),
    (Workload::Sparse, Contender::ManyToOne),
    (Workload::Sparse, Contender::PlainOneToOne),
    (Workload::Sparse, Contender::PlainManyToOne),
    (Workload::Pair, Contender::OneToOne),
    (Workload::Pair, Contender::ManyToOne),
    (Workload::Pair, Contender::PlainOneToOne),
    (Workload::Pair, Contender::PlainManyToOne),
    (Workload::Pair, Contender::OneToOneSingle),
    (Workload::Pair, Contender::ManyToOneSingle),
    (Workload::Pair, Contender::OneToOneBatch),
    (Workload::Pair, Contender::ManyToOneBatch),
    (Workload::Crowd, Contender::ManyToOne),
    (Workload::Crowd, Contender::PlainManyToOne),
    (Workload::Crowd, Contender::ManyToOneSingle),
    (Workload::Crowd, Contender::ManyToOneBatch),
    (Workload::Trips, Contender::OneToOne),
    (Workload::Trips, Contender::ManyToOne),
    (Workload::Trips, Contender::PlainOneToOne),
    (Workload::Trips, Contender::PlainManyToOne),
    (Workload::Broadcast, Contender::Board),
    (Workload::Counters, Contender::Counters),
    (Workload::Storm, Contender::Storm),
];

/// A request for one measurement.
#[derive(Clone, Copy, PartialEq, Eq)]
pub struct Request {
    pub workload: Workload,
    pub contender: Contender,
    /// The bytes of a message.
    pub size: usize,
    /// The bytes of a buffer.
    pub capacity: u32,
    /// Producers, receivers or clients.
    pub threads: u32,
    /// For about how long to measure.
    pub milliseconds: u64,
}

/// The entry with these names.
fn find_entry(workload: &str, contender: &str) -> Result<(Workload, Contender), Fault> {
    for (w, c) in ENTRIES.iter() {
        if w.name() == workload && c.name() == contender {
            return Ok((*w, *c));
        }
    }
    Err(Fault::NO_CONTENDER)
}

/// The number that a word spells; of one with a fraction the whole part.
fn number<T: TryFrom<u64> + Drop>(word: &str) -> Result<T, Fault>
where
    T::Error: Drop,
{
    let whole = word.split('.').next().unwrap_or(word);
    let number: u64 = whole.parse().or(Err(Fault::BAD_REQUEST))?;
    T::try_from(number).or(Err(Fault::BAD_REQUEST))
}

impl Request {
    /// Reads the words after `run`. `BAD_REQUEST` if one is missing or not a number, and `NO_CONTENDER` if there is no
    /// entry with these names.
    pub fn parse(words: &[&str]) -> Result<Request, Fault> {
        let [workload, contender, size, capacity, threads, milliseconds] = words else {
            return Err(Fault::BAD_REQUEST);
        };
        let (workload, contender) = find_entry(workload, contender)?;
        Ok(Request {
            workload,
            contender,
            size: number(size)?,
            capacity: number(capacity)?,
            threads: number(threads)?,
            milliseconds: number(milliseconds)?,
        })
    }
}
