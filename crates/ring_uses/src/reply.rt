//! A request, and its reply.
ghost use Rattle.std.specs.Prelude.{IfOk};
ghost use Rattle.ring_uses.specs.Reply.{IsAnswered};

use ring_ends::{ClientEnd, ConductorEnd, Sizes};
use ring_rings::Producer;
use ring_service::{Conductor, Polled, Reply, Request};
use ring_words::SoloRing;
use std::alloc::Global;
use std::snapshot::Snapshot;
use thiserror::Error;

/// The error of a client whose poll returned no reply to its request.
#[derive(Clone, Copy, Debug, Error)]
#[error("no reply came")]
pub struct NoReply;

/// The reply to a request, and the ring that was closed.
#[derive(Drop)]
pub struct Answer {
    pub correlation: u64,
    pub reply: Reply,
    pub rest: SoloRing,
    /// The producer with which the ring was closed. This field is for contracts, and has no bytes.
    pub producer: Snapshot<Producer>,
    /// The conductor that finished, for contracts.
    pub conductor: Snapshot<Conductor>,
    /// The client before it was joined, for contracts.
    pub client: Snapshot<ClientEnd>,
}

/// Asks a conductor for a counter, and polls for the reply.
pub fn ask(alloc: Global) -> anyhow::Result<Answer>
    ensures { IfOk result IsAnswered }
{
    let sizes = Sizes {
        capacity: 1_024,
        replies: 256,
        counters: 4,
        reuse_ms: 50,
    };
    let mut conductor = ConductorEnd::new(alloc, sizes)?;
    let mut client = conductor.client(alloc)?;
    let request: Request<&[u8]> = Request::Allocate {
        type_id: 1,
        key: &[],
        label: b"requests",
    };
    let correlation = client.send(request)?;
    conductor.do_work(0, u32::MAX);
    let Polled::Answered(reply) = client.poll(correlation) else {
        return Err(NoReply.into());
    };
    let named = Snapshot::of(&client);
    conductor.join(client);
    match conductor.finish() {
        Ok(finished) => Ok(Answer {
            correlation,
            reply,
            rest: finished.rest,
            producer: finished.producer,
            conductor: finished.conductor,
            client: named,
        }),
        Err(refused) => Err(refused.reason.into()),
    }
}
