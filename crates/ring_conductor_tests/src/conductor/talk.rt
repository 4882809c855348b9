//! A client that talks to a conductor, with all that both need.
ghost use Rattle.ring_rings.specs.Seats.{IsConsumerOf, IsProducerOf, MayClaim};
ghost use Rattle.ring_board.specs.Seats.{IsReceiverOf};
ghost use Rattle.ring_service.specs.{Asking.producer_of, Asking.receiver_of, Conducting.IsConductorOf};

use crate::calls::Plays;
use crate::conductor::bench::Bench;
use ring_board::Board;
use ring_counters::{CounterValues, IdFault};
use ring_rings::{ClaimFault, Kind, Ring, TryFault};
use ring_service::{
    Client, Conductor, Finished, Polled, Request, SendFault, Work, WorkStop, finish,
};
use std::alloc::Global;
use std::process::Abort;

/// A call of a client, or of its conductor.
#[derive(Clone, Copy)]
pub enum Call<'a> {
    Send(Request<&'a [u8]>),
    SendAs(u64, Request<&'a [u8]>),
    Poll(u64),
    NextId,
    Heartbeat,
    /// The conductor stores its heartbeat.
    Beat(u64),
    Work(u32),
    Value(u32),
}

/// What a call returns.
#[derive(Clone, Copy, Debug, PartialEq, Eq)]
pub enum Said {
    Id(u64),
    Sent,
    /// The command with this id does not fit into the ring, with its tail and its head.
    Full(u64, u64, u64),
    TooLong,
    Beaten,
    Heartbeat(u64),
    Other(SendFault),
    Polled(Polled),
    Worked(u64, WorkStop),
    Value(Result<i64, IdFault>),
}

fn refused(fault: SendFault) -> Said {
    match fault {
        SendFault::TooLong => Said::TooLong,
        SendFault::Refused {
            correlation,
            reason: TryFault::Refused(ClaimFault::InsufficientCapacity { tail, head }),
        } => Said::Full(correlation, tail, head),
        other => Said::Other(other),
    }
}

/// A client on a ring of either kind, and a conductor of four counters, whose ids are given again after 50 ms.
#[derive(Drop)]
pub struct Talk<K: Kind> {
    ring: Ring<K>,
    board: Board,
    values: CounterValues,
    conductor: Conductor,
    client: Client,
    ghost conducts: { IsConductorOf IsConsumerOf ring board values conductor },
    ghost sends: { IsProducerOf ring (producer_of client) },
    ghost sole: { MayClaim K.many (producer_of client) },
    ghost listens: { IsReceiverOf board (receiver_of client) },
}

impl<K: Kind> Talk<K> {
    /// With a ring and a board of these capacities.
    pub fn new(rt: &impl Abort, alloc: Global, ring: u32, board: u32) -> Self {
        let Bench {
            ring,
            board,
            values,
            conductor,
            producer,
            listener,
        } = Bench::<K>::with_sizes(rt, alloc, (ring, board), 4, 0);
        Talk {
            ring,
            board,
            values,
            conductor,
            client: Client::new(producer, listener),
        }
    }

    fn send(&mut self, request: Request<&[u8]>) -> Said {
        match self.client.send(&self.ring, request) {
            Ok(correlation) => Said::Id(correlation),
            Err(fault) => refused(fault),
        }
    }

    fn send_as(&mut self, correlation: u64, request: Request<&[u8]>) -> Said {
        match self.client.send_as(&self.ring, correlation, request) {
            Ok(()) => Said::Sent,
            Err(fault) => refused(fault),
        }
    }

    fn beat(&mut self, value: u64) -> Said {
        self.conductor.set_heartbeat(&self.ring, value);
        Said::Beaten
    }

    /// Works at the moment 0.
    fn work(&mut self, limit: u32) -> Said {
        let Work { messages, stopped } = self
            .conductor
            .do_work(&self.ring, &self.board, &self.values, 0, limit);
        Said::Worked(messages, stopped)
    }

    /// Finishes once the client is back.
    pub fn finish(self) -> Option<Finished> {
        let Talk {
            ring,
            board,
            values,
            mut conductor,
            client,
        } = self;
        let (producer, receiver) = client.into_parts();
        conductor.join_receiver(&board, receiver);
        finish(ring, board, values, conductor, producer).ok()
    }
}

impl<'a, K: Kind> Plays<Call<'a>, Said> for Talk<K> {
    fn call(&mut self, call: Call<'a>) -> Said {
        match call {
            Call::Send(request) => self.send(request),
            Call::SendAs(correlation, request) => self.send_as(correlation, request),
            Call::Poll(correlation) => Said::Polled(self.client.poll(&self.board, correlation)),
            Call::NextId => Said::Id(self.client.next_correlation_id(&self.ring)),
            Call::Heartbeat => Said::Heartbeat(self.client.heartbeat(&self.ring)),
            Call::Beat(value) => self.beat(value),
            Call::Work(limit) => self.work(limit),
            Call::Value(id) => Said::Value(self.conductor.counters().value(id)),
        }
    }
}

/// Makes calls over a ring of this kind, with a ring and a board of these capacities, and tests what each answers.
pub fn plays<K: Kind>(
    rt: &impl Abort,
    alloc: Global,
    sizes: (u32, u32),
    calls: &[(Call<'_>, Said)],
) {
    Talk::<K>::new(rt, alloc, sizes.0, sizes.1).plays(rt, calls);
}
