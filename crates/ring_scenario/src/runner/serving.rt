//! The calls of the conductor's side. They print lines, and write commands into the ring.
ghost use Rattle.std.specs.Prelude.{◌≡◌, ◌≢◌, true, IfErr, IfOk, string_bytes, ◌↔◌, IfNone, IfSome, IsSome, OnOk};
ghost use Rattle.ring_protocol.specs.Command.{content_of_request};
ghost use Rattle.ring_rings.specs.Seats.{capacity_of, view_of};
ghost use Rattle.ring_ends.specs.{End.WritesAlone, Held.IsFree, Held.held_in};
ghost use Rattle.ring_scenario.specs.ServiceTexts.{counter_text, counters_text, work_stop_text};
ghost use Rattle.ring_scenario.specs.Keeping.{KeepsButProducer};
ghost use Rattle.ring_scenario.specs.Serving.{FitsRoom, RefusesRequest, SendsRequest};

use crate::lines::{LineError, LineFault, Moment, ServiceCall};
use crate::printer::hex_word;
use crate::refusal::Refusal;
use crate::runner::Runner;
use crate::service::CommandService;
use ring_counters::CounterInfo;
use ring_rings::{ClaimFault, TryFault};
use ring_service::{Request, Work, WorkStop, encode_request};
use std::alloc::{AllocError, Global};

/// The largest number of bytes of a command.
const MAX_COMMAND: usize = 4096;

impl Runner {
    ghost use Rattle.ring_scenario.specs.Executing.{CannotServe, Serves};
    ghost use Rattle.ring_scenario.specs.Keeping.{KeepsButService, KeepsOthers};
    ghost use Rattle.ring_scenario.specs.SeatLines.{HearsLine, ListensLine, PeeksLine, WatchesLine};
    ghost use Rattle.ring_scenario.specs.ServiceLines.{CountsLine, RequestsLine, SendsLine, WorksLine, owner_text};

    /// Executes a call of the conductor's side, and returns the lines that it prints.
    pub(super) fn serve(&mut self, call: ServiceCall) -> Result<String, LineFault>
        ensures line { IfOk result (λ text. Serves call self.old.service self.new.service (string_bytes text)) }
        ensures rest { OnOk result (KeepsButService self.old self.new) }
        ensures bad { IfErr result (λ fault. fault ≢ LineFault.OutOfMemory → CannotServe call self.old.service) }
    {
        self.serves = true;
        let text = match call {
            ServiceCall::Send { type_id, body } => self.send(type_id, body.as_slice())?,
            ServiceCall::Request(request) => self.request(request.as_slices())?,
            ServiceCall::Work { now, limit } => self.work(now, limit)?,
            ServiceCall::Listen => self.listen()?,
            ServiceCall::Hear { number } => self.hear(number)?,
            ServiceCall::Counters => self.counters()?,
            ServiceCall::Owner { id } => self.owner(id)?,
            ServiceCall::Watch => self.watch()?,
            ServiceCall::Peek { number, id } => self.peek(number, id)?,
            ServiceCall::Unwatch { number } => {
                self.service
                    .unwatch(number)
                    .ok_or(LineFault::Bad(LineError::NotHeld))?;
                self.ok()?
            }
        };
        Ok(text)
    }

    fn send(&mut self, type_id: i32, body: &[u8]) -> Result<String, AllocError>
        ensures line { IfOk result (λ text.
            SendsLine type_id body.now self.old.service self.new.service (string_bytes text)) }
        ensures rest { KeepsOthers self.old self.new }
    {
        let sent = self.service.send(type_id, body);
        self.done(sent)
    }

    fn request(&mut self, request: Request<&[u8]>) -> Result<String, LineFault>
        ensures line { IfOk result (λ text. RequestsLine (content_of_request request.entry) self.old.service
            self.new.service (string_bytes text)) }
        ensures rest { KeepsOthers self.old self.new }
        ensures bad { IfErr result (λ fault. fault ≢ LineFault.OutOfMemory → ¬ FitsRoom (content_of_request request.entry)) }
    {
        let Some(sent) = self.service.request(request) else {
            return Err(LineFault::Bad(LineError::CommandTooLong));
        };
        Ok(self.identified("sent", sent)?)
    }

    fn work(&mut self, now: Moment, limit: u32) -> Result<String, AllocError>
        ensures line { IfOk result (λ text.
            WorksLine now.ms limit self.old.service self.new.service (string_bytes text)) }
        ensures rest { KeepsOthers self.old self.new }
    {
        let Work { messages, stopped } = self.service.work(now, limit);
        let stop = work_stop_name(stopped);
        format!(in self.alloc; "work {messages} stopped {stop}\n")
    }

    fn listen(&mut self) -> Result<String, AllocError>
        ensures line { IfOk result (λ text. ListensLine self.old.service self.new.service (string_bytes text)) }
        ensures rest { KeepsOthers self.old self.new }
    {
        let made = self.service.listen(self.alloc)?;
        self.numbered("listener", made)
    }

    fn hear(&mut self, number: usize) -> Result<String, LineFault>
        ensures line { IfOk result (λ text.
            HearsLine number self.old.service self.new.service (string_bytes text)) }
        ensures rest { KeepsOthers self.old self.new }
        ensures bad { IfErr result (λ fault. fault ≢ LineFault.OutOfMemory
            → IsFree (held_in self.old.service.listeners) number) }
    {
        let Some(received) = self.service.hear(self.alloc, number) else {
            return Err(LineFault::Bad(LineError::NotHeld));
        };
        let received = received?;
        Ok(self.received(received)?)
    }

    fn counters(&self) -> Result<String, AllocError>
        ensures { IfOk result (λ text. CountsLine self.now.service (string_bytes text)) }
    {
        match self.service.live(self.alloc) {
            Ok(infos) => counters_text(self.alloc, infos.as_slice()),
            Err(fault) => fault.line(self.alloc),
        }
    }

    fn owner(&self, id: u32) -> Result<String, AllocError>
        ensures { IfOk result (λ text. string_bytes text ≡ owner_text id self.now.service) }
    {
        self.identified("owner", self.service.owner(id))
    }

    fn watch(&mut self) -> Result<String, AllocError>
        ensures line { IfOk result (λ text. WatchesLine self.old.service self.new.service (string_bytes text)) }
        ensures rest { KeepsOthers self.old self.new }
    {
        let made = self.service.watch()?;
        self.numbered("watcher", made)
    }

    fn peek(&mut self, number: usize, id: u32) -> Result<String, LineFault>
        ensures line { IfOk result (λ text.
            PeeksLine number id self.old.service self.new.service (string_bytes text)) }
        ensures rest { KeepsOthers self.old self.new }
        ensures bad { IfErr result (λ fault. fault ≢ LineFault.OutOfMemory
            → IsFree (held_in self.old.service.watchers) number) }
    {
        let Some(loaded) = self.service.peek(number, id) else {
            return Err(LineFault::Bad(LineError::NotHeld));
        };
        Ok(self.loaded(loaded)?)
    }
}

fn work_stop_name(stop: WorkStop) -> &'static str
    ensures { result.now ≡ work_stop_text stop }
{
    match stop {
        WorkStop::Limit => "limit",
        WorkStop::Block => "block",
        WorkStop::Unpublished => "unpublished",
        WorkStop::BoardEnd => "board-end",
    }
}

/// Returns a line for each counter, and a line with the number of counters.
fn counters_text(alloc: Global, infos: &[CounterInfo]) -> Result<String, AllocError>
    ensures { IfOk result (λ text. string_bytes text ≡ counters_text infos.now) }
{
    let mut text = String::new(alloc);
    for info in infos {
        let line = counter_text(alloc, info)?;
        text.push_str(line.as_str())?;
    }
    let last = format!(in alloc; "counters {}\n", infos.len())?;
    text.push_str(last.as_str())?;
    Ok(text)
}

fn counter_text(alloc: Global, info: &CounterInfo) -> Result<String, AllocError>
    ensures { IfOk result (λ text. string_bytes text ≡ counter_text info.now) }
{
    let label = hex_word(alloc, info.label.as_slice())?;
    format!(in alloc;
        "counter {} type {} value {} registration {} label {label}\n",
        info.id, info.type_id, info.value, info.registration
    )
}

impl CommandService {
    /// Writes a message into the ring, as `ManyToOneRing::write` does.
    pub fn send(&mut self, type_id: i32, body: &[u8]) -> Result<(), ClaimFault>
        ensures wrote { WritesAlone true (capacity_of self.old.ring) type_id body.now (view_of self.old.producer) result
            (view_of self.new.producer) }
        ensures rest { KeepsButProducer self.old self.new }
    {
        match self.ring.try_write(&mut self.producer, type_id, body) {
            Ok(()) => Ok(()),
            Err(TryFault::Refused(fault)) => Err(fault),
            Err(TryFault::Contended { .. }) => unreachable!(),
        }
    }

    /// Draws a correlation id, writes the command with it into the ring, and returns the id. The id is not drawn again,
    /// even if the ring refuses the command as `ManyToOneRing::write` does.
    ///
    /// Returns `None` if the command takes more than 4,096 bytes. Nothing has then changed.
    pub fn request(&mut self, request: Request<&[u8]>) -> Option<Result<u64, ClaimFault>>
        ensures fits { IsSome result ↔ FitsRoom (content_of_request request.entry) }
        ensures sent { IfSome result (λ answer. IfOk answer (λ correlation. SendsRequest
            (capacity_of self.old.ring) (content_of_request request.entry) (view_of self.old.producer) correlation
            (view_of self.new.producer))) }
        ensures refused { IfSome result (λ answer. IfErr answer (λ fault. RefusesRequest
            (capacity_of self.old.ring) (content_of_request request.entry) (view_of self.old.producer) fault
            (view_of self.new.producer))) }
        ensures none { IfNone result (self.new.producer ≡ self.old.producer) }
        ensures rest { KeepsButProducer self.old self.new }
    {
        if request.encoded_len()? > MAX_COMMAND {
            return None;
        }
        let mut body = [0; MAX_COMMAND];
        let correlation = self.ring.next_correlation_id(&mut self.producer);
        let Some(len) = encode_request(correlation, request, &mut body) else {
            unreachable!()
        };
        match self.send(request.type_id(), &body[..len]) {
            Ok(()) => Some(Ok(correlation)),
            Err(fault) => Some(Err(fault)),
        }
    }
}
