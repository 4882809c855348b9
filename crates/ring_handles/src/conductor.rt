//! A conductor in a handle: what it does, and what it lends.
pub(crate) mod joining;

ghost use Rattle.std.specs.Prelude.{◌≡◌, IfErr, IfOk};
ghost use Rattle.ring_service.specs.Conducting.{manager_in};
ghost use Rattle.ring_handles.specs.Conducting.{report_out, stop_number, ConductorBeat, Worked};
ghost use Rattle.ring_handles.specs.Seating.{Hires, IsUnheard, IsUnhired, LendsReader, LendsReceiver, WhyNotSeated};

use crate::boards::ReceiverSide;
use crate::client::ClientSide;
use crate::code::{BAD_MOMENT, DONE, NO_SHARES, OUT_OF_MEMORY};
use crate::counters::ReaderSide;
use crate::counting::LAST_MOMENT;
use crate::identity::Identity;
use ring_counters::CountersManager;
use ring_ends::{ConductorEnd, SplitFault};
use ring_service::WorkStop;
use std::alloc::Global;

/// A conductor, with what it shares with its clients, receivers and readers.
#[derive(Drop)]
pub struct ConductorSide {
    pub(crate) end: ConductorEnd,
    /// The conductor's number.
    pub(crate) identity: Identity,
}

/// The number of why a conductor stopped.
fn stop_number(stopped: WorkStop) -> i32
    ensures { result ≡ stop_number stopped }
{
    match stopped {
        WorkStop::Limit => 0,
        WorkStop::Block => 1,
        WorkStop::Unpublished => 2,
        WorkStop::BoardEnd => 3,
    }
}

impl ConductorSide {
    /// Makes a client.
    pub fn client(&mut self, alloc: Global) -> Result<ClientSide, i32>
        ensures hired { IfOk result (Hires self.old self.new) }
        ensures refused { IfErr result (λ code. (self.new ≡ self.old) × IsUnhired self.old code) }
    {
        match self.end.client(alloc) {
            Ok(end) => Ok(ClientSide {
                end,
                identity: self.identity,
            }),
            Err(fault) => Err(fault.code()),
        }
    }

    /// Makes a receiver of the replies.
    pub fn subscribe(&mut self, alloc: Global) -> Result<ReceiverSide, i32>
        ensures subscribed { IfOk result (LendsReceiver self.old self.new) }
        ensures refused { IfErr result (λ code. (self.new ≡ self.old) × IsUnheard self.old code) }
    {
        match self.end.subscribe(alloc) {
            Ok(end) => Ok(ReceiverSide {
                end,
                identity: self.identity,
                lap: None,
            }),
            Err(fault) => Err(fault.code()),
        }
    }

    /// Makes a reader of the counters' values.
    pub fn reader(&mut self) -> Result<ReaderSide, i32>
        ensures lent { IfOk result (LendsReader self.old self.new) }
        ensures refused { IfErr result (λ code. (self.new ≡ self.old) × WhyNotSeated self.old code) }
    {
        match self.end.reader() {
            Ok(end) => Ok(ReaderSide {
                end,
                identity: self.identity,
            }),
            Err(SplitFault::OneShare) => Err(NO_SHARES),
            Err(SplitFault::OutOfMemory) => Err(OUT_OF_MEMORY),
        }
    }

    /// Takes up to `limit` commands, and reports how many it took and why it stopped.
    pub fn work(&mut self, now: u64, limit: u32, messages: &mut u64, stopped: &mut i32) -> i32
        ensures { Worked now limit (report_out messages.old stopped.old) (report_out messages.new stopped.new)
            self.old self.new result }
    {
        if now > LAST_MOMENT {
            return BAD_MOMENT;
        }
        let work = self.end.do_work(now, limit);
        *messages = work.messages;
        *stopped = stop_number(work.stopped);
        DONE
    }

    /// Returns its counters, which are asked by the functions of `asking`.
    pub fn counters(&self) -> &CountersManager
        ensures { result.now ≡ manager_in self.now.end.conductor }
    {
        self.end.counters()
    }

    /// Stores the heartbeat that clients load.
    pub fn set_heartbeat(&mut self, value: u64) -> i32
        ensures { ConductorBeat value self.old self.new result }
    {
        self.end.set_heartbeat(value);
        DONE
    }
}
