//! A conductor at work, with all that it needs.
ghost use Rattle.std.specs.Prelude.{◌≡◌, ◌≤◌, ◌^◌, All};
ghost use Rattle.ring_rings.specs.Seats.{all_shares, shares_of, IsConsumerOf, IsProducerOf};
ghost use Rattle.ring_board.specs.Seats.{IsReceiverOf};
ghost use Rattle.ring_service.specs.Conducting.{IsConductorOf};

use crate::calls::Plays;
use crate::conductor::sending::{receives, send};
use ring_board::{Board, CopyReceiver};
use ring_counters::{CounterValues, CountersManager, IdFault};
use ring_rings::{Bodies, InWords, Kind, Producer, Ring};
use ring_service::{Command, Conductor, Cycle, FinishFault, Finished, Reply, Work, WorkStop};
use std::alloc::Global;
use std::process::Abort;

/// A call on a conductor, on its ring or on its board.
#[derive(Clone, Copy)]
pub enum Call<'a> {
    /// A client sends these commands.
    Send(&'a [Command<'a>]),
    /// A client sends bytes that may be no command.
    Write(i32, &'a [u8]),
    /// The conductor works at the moment 0.
    Work(u32),
    /// The listener receives these replies, each with its place, and no more.
    Receive(&'a [(u64, Reply)]),
    /// A client loads the heartbeat.
    Heartbeat,
    SetHeartbeat(u64),
    Value(u32),
    State(u32),
}

/// What a call returns.
#[derive(Clone, Copy, Debug, PartialEq, Eq)]
pub enum Answer {
    Done,
    Failed,
    Worked(u64, WorkStop),
    Heartbeat(u64),
    Value(Result<i64, IdFault>),
    State(Result<i32, IdFault>),
}

fn done(is_done: bool) -> Answer {
    if is_done {
        Answer::Done
    } else {
        Answer::Failed
    }
}

/// A conductor of some counters, with its ring, its board, the ring's sole producer and a listener. `B` says where the
/// ring's bodies lie.
#[derive(Drop)]
pub struct Bench<K, B: Bodies = InWords> {
    pub ring: Ring<K, B>,
    pub board: Board,
    pub values: CounterValues,
    pub conductor: Conductor,
    pub producer: Producer,
    pub listener: CopyReceiver,
    ghost conducts: { IsConductorOf IsConsumerOf ring board values conductor },
    ghost sends: { IsProducerOf ring producer },
    ghost sole: { shares_of producer ≡ all_shares },
    ghost listens: { IsReceiverOf board listener },
}

impl<K: Kind, B: Bodies> Bench<K, B> {
    /// With a ring of 1,024 bytes, a board of 256, and this many counters, whose ids are given again after 50 ms.
    pub fn new(rt: &impl Abort, alloc: Global, counters: u32) -> Self {
        Self::with_sizes(rt, alloc, (1024, 256), counters, 0)
    }

    /// The same, with the board's first record at this position.
    pub fn new_at(rt: &impl Abort, alloc: Global, counters: u32, start: u64) -> Self {
        Self::with_sizes(rt, alloc, (1024, 256), counters, start)
    }

    /// The same with these capacities of the ring and of the board.
    pub fn with_sizes(
        rt: &impl Abort,
        alloc: Global,
        sizes: (u32, u32),
        counters: u32,
        start: u64,
    ) -> Self {
        let (ring, producer, consumer) = Ring::<K, B>::new(alloc, sizes.0).expect(rt, "a ring");
        let (board, transmitter) = Board::new_at(alloc, sizes.1, start).expect(rt, "a board");
        let (values, counters) = CountersManager::new(alloc, counters, 50).expect(rt, "counters");
        let mut conductor = Conductor::new(consumer, transmitter, counters);
        let listener = conductor.subscribe(alloc, &board).expect(rt, "a listener");
        Bench {
            ring,
            board,
            values,
            conductor,
            producer,
            listener,
        }
    }

    /// Sends commands, and tests whether there was room for all.
    pub fn send(&mut self, commands: &[Command]) -> bool {
        send(&self.ring, &mut self.producer, commands)
    }

    fn write(&mut self, type_id: i32, body: &[u8]) -> bool {
        self.ring
            .try_write(&mut self.producer, type_id, body)
            .is_ok()
    }

    pub fn run(&mut self, cycles: &[Cycle]) -> Work
        requires { All (λ cycle. cycle.now ≤ 2 ^ 62) cycles.now }
    {
        self.conductor
            .run(&self.ring, &self.board, &self.values, cycles)
    }

    fn work(&mut self, limit: u32) -> Answer {
        let Work { messages, stopped } = self
            .conductor
            .do_work(&self.ring, &self.board, &self.values, 0, limit);
        Answer::Worked(messages, stopped)
    }

    /// Tests whether these are the next replies, each with its place, and no more follow.
    pub fn receives(&mut self, replies: &[(u64, Reply)]) -> bool {
        receives(&self.board, &mut self.listener, replies)
    }

    fn set_heartbeat(&mut self, value: u64) -> Answer {
        self.conductor.set_heartbeat(&self.ring, value);
        Answer::Done
    }

    pub fn finish(self) -> Result<Finished, (FinishFault, Self)> {
        let Bench {
            ring,
            board,
            values,
            conductor,
            producer,
            listener,
        } = self;
        match ring_service::finish(ring, board, values, conductor, producer) {
            Ok(finished) => Ok(finished),
            Err(back) => Err((
                back.reason,
                Bench {
                    ring: back.ring,
                    board: back.board,
                    values: back.values,
                    conductor: back.conductor,
                    producer: back.producer,
                    listener,
                },
            )),
        }
    }

    /// Finishes once the listener is back.
    pub fn finish_alone(self) -> Option<Finished> {
        let Bench {
            ring,
            board,
            values,
            mut conductor,
            producer,
            listener,
        } = self;
        conductor.join_receiver(&board, listener);
        ring_service::finish(ring, board, values, conductor, producer).ok()
    }
}

impl<'a, K: Kind, B: Bodies> Plays<Call<'a>, Answer> for Bench<K, B> {
    fn call(&mut self, call: Call<'a>) -> Answer {
        match call {
            Call::Send(commands) => done(self.send(commands)),
            Call::Write(type_id, body) => done(self.write(type_id, body)),
            Call::Work(limit) => self.work(limit),
            Call::Receive(replies) => done(self.receives(replies)),
            Call::Heartbeat => Answer::Heartbeat(self.ring.heartbeat(&mut self.producer)),
            Call::SetHeartbeat(value) => self.set_heartbeat(value),
            Call::Value(id) => Answer::Value(self.conductor.counters().value(id)),
            Call::State(id) => Answer::State(self.conductor.counters().state(id)),
        }
    }
}

/// Makes calls on a conductor of four counters over a ring of this kind, and tests what each answers.
pub fn plays<K: Kind>(rt: &impl Abort, alloc: Global, calls: &[(Call<'_>, Answer)]) {
    plays_from::<K>(rt, alloc, 0, calls);
}

/// The same with a board that begins at this position.
pub fn plays_from<K: Kind>(
    rt: &impl Abort,
    alloc: Global,
    start: u64,
    calls: &[(Call<'_>, Answer)],
) {
    Bench::<K>::new_at(rt, alloc, 4, start).plays(rt, calls);
}
