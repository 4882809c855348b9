//! The parts of a run, and the text that its calls print.
ghost use Rattle.std.specs.Prelude.{◌≡◌, ◌≢◌, ◌↔◌, ℕ, None, IfErr, IfOk, IfSome, IsOkUnless, IsSome, IsTrue, OnOk, string_bytes};
ghost use Rattle.ring_ends.specs.Held.{IsFree, held_in};
ghost use Rattle.ring_scenario.specs.{Closing.read_count, Sizes.size_fault_of};

mod serving;
mod storming;
mod texts;

use crate::fault::RunFault;
use crate::lines::{Call, LineError, LineFault};
use crate::options::Options;
use crate::printer::Printer;
use crate::ring::RunRing;
use crate::service::{CommandService, Served};
use ring_ends::StandaloneBoard;
use ring_words::{Action, Positions};
use std::alloc::{AllocError, Global};
use std::sync::Wait;
use std::thread::Threads;

/// The parts of a run.
#[derive(Drop)]
pub struct Runner {
    alloc: Global,
    ring: RunRing,
    board: StandaloneBoard,
    service: CommandService,
    /// The capacity of the command ring, and of the ring of a storm.
    commands: u32,
    messages: u64,
    /// Whether a line used the conductor's side.
    serves: bool,
    ghost counted: { messages ≡ read_count ring },
}

/// The numbers that `end` prints.
#[derive(Drop)]
pub struct Ended {
    /// The number of messages that the reads took.
    pub messages: u64,
    /// The number of messages that were left.
    pub left: u64,
    /// The result of the conductor, if a line used its side.
    pub served: Option<Served>,
}

impl Runner {
    ghost use Rattle.ring_scenario.specs.BoardLines.{ReceivesLine, SubscribesLine, TransmitsLine};
    ghost use Rattle.ring_scenario.specs.{Executing.CannotExecute, Executing.Executes, Making.RunsBy, Running.EndsAs};
    ghost use Rattle.ring_scenario.specs.Keeping.{KeepsButBoard, KeepsButRing, KeepsRest};
    ghost use Rattle.ring_scenario.specs.RingLines.{ClaimsLine, ControlsLine, HasNoClaim, PutsLine, ReadsLine, WritesLine};

    /// Makes the parts that the options describe.
    pub fn new(alloc: Global, options: &Options) -> Result<Self, RunFault>
        requires { size_fault_of options.now ≡ None }
        ensures made { IsOkUnless result RunFault.OutOfMemory }
        ensures options { IfOk result (RunsBy options.now) }
    {
        // The sizes were tested, so the only possible error is out of memory.
        let Ok(ring) = RunRing::new(alloc, options.ring) else {
            return Err(RunFault::OutOfMemory);
        };
        let Ok(board) = StandaloneBoard::new(alloc, options.board) else {
            return Err(RunFault::OutOfMemory);
        };
        let service = CommandService::new(alloc, options)?;
        Ok(Runner {
            alloc,
            ring,
            board,
            service,
            commands: options.commands,
            messages: 0,
            serves: false,
        })
    }

    /// Executes a call, and returns the lines that it prints.
    pub fn execute<R: Threads + Wait>(&mut self, rt: &R, call: Call) -> Result<String, LineFault>
        ensures line { IfOk result (λ text. Executes call self.old self.new (string_bytes text)) }
        ensures rest { OnOk result (KeepsRest call self.old self.new) }
        ensures bad { IfErr result (λ fault. fault ≢ LineFault.OutOfMemory → CannotExecute call self.old) }
    {
        let text = match call {
            Call::Write { type_id, body } => self.write(type_id, body.as_slice())?,
            Call::Claim { type_id, len } => self.claim(type_id, len)?,
            Call::Put {
                number,
                offset,
                bytes,
            } => self.put(number, offset, bytes.as_slice())?,
            Call::Commit { number } => {
                self.ring
                    .commit(number)
                    .ok_or(LineFault::Bad(LineError::NotHeld))?;
                self.ok()?
            }
            Call::Abort { number } => {
                self.ring
                    .abort(number)
                    .ok_or(LineFault::Bad(LineError::NotHeld))?;
                self.ok()?
            }
            Call::Read { limit } => self.read(limit)?,
            Call::Control { limit, actions } => self.control(limit, actions.as_slice())?,
            Call::Positions => self.positions()?,
            Call::Correlation => self.correlation()?,
            Call::Beat { value } => {
                self.ring.consumer.set_heartbeat(value);
                self.ok()?
            }
            Call::Heartbeat => self.heartbeat()?,
            Call::Transmit { type_id, body } => self.transmit(type_id, body.as_slice())?,
            Call::Subscribe => self.subscribe()?,
            Call::Receive { number } => self.receive(number)?,
            Call::Leave { number } => {
                self.board
                    .leave(number)
                    .ok_or(LineFault::Bad(LineError::NotHeld))?;
                self.ok()?
            }
            Call::Storm { clients, commands } => self.storm(rt, clients, commands)?,
            Call::Service(call) => self.serve(call)?,
        };
        Ok(text)
    }

    fn write(&mut self, type_id: i32, body: &[u8]) -> Result<String, AllocError>
        ensures line { IfOk result (λ text.
            WritesLine type_id body.now self.old.ring self.new.ring (string_bytes text)) }
        ensures rest { KeepsButRing self.old self.new }
    {
        let written = self.ring.producer.write_alone(type_id, body);
        self.done(written)
    }

    fn claim(&mut self, type_id: i32, len: usize) -> Result<String, AllocError>
        ensures line { IfOk result (λ text.
            ClaimsLine type_id len self.old.ring self.new.ring (string_bytes text)) }
        ensures rest { KeepsButRing self.old self.new }
    {
        let tried = self.ring.claim(type_id, len)?;
        self.claimed(tried)
    }

    fn put(&mut self, number: usize, offset: usize, bytes: &[u8]) -> Result<String, LineFault>
        ensures line { IfOk result (λ text.
            PutsLine number offset bytes.now self.old.ring self.new.ring (string_bytes text)) }
        ensures rest { KeepsButRing self.old self.new }
        ensures bad { IfErr result (λ fault. fault ≢ LineFault.OutOfMemory → HasNoClaim self.old.ring number) }
    {
        let Some(put) = self.ring.put(number, offset, bytes) else {
            return Err(LineFault::Bad(LineError::NotHeld));
        };
        Ok(self.done(put)?)
    }

    fn read(&mut self, limit: u32) -> Result<String, AllocError>
        ensures line { IfOk result (λ text. ReadsLine limit self.old.ring self.new.ring (string_bytes text)) }
        ensures rest { KeepsButRing self.old self.new }
    {
        let mut printer = Printer::new(self.alloc, &[]);
        let end = self.ring.consumer.read(limit, &mut printer);
        self.messages = self.messages.saturating_add(u64::from(end.messages));
        self.read_text(printer, end)
    }

    fn control(&mut self, limit: u32, actions: &[Action]) -> Result<String, AllocError>
        ensures line { IfOk result (λ text.
            ControlsLine limit actions.now self.old.ring self.new.ring (string_bytes text)) }
        ensures rest { KeepsButRing self.old self.new }
    {
        let mut printer = Printer::new(self.alloc, actions);
        let end = self.ring.consumer.controlled_read(limit, &mut printer);
        self.messages = self.messages.saturating_add(u64::from(end.messages));
        self.read_text(printer, end)
    }

    fn positions(&mut self) -> Result<String, AllocError>
        ensures line { IfOk result (λ text. Executes Call.Positions self.old self.new (string_bytes text)) }
        ensures rest { KeepsButRing self.old self.new }
    {
        let Positions { head, tail } = self.ring.producer.positions();
        format!(in self.alloc; "head {head} tail {tail}\n")
    }

    fn correlation(&mut self) -> Result<String, AllocError>
        ensures line { IfOk result (λ text. Executes Call.Correlation self.old self.new (string_bytes text)) }
        ensures rest { KeepsButRing self.old self.new }
    {
        let id = self.ring.producer.next_correlation_id();
        format!(in self.alloc; "correlation {id}\n")
    }

    fn heartbeat(&mut self) -> Result<String, AllocError>
        ensures line { IfOk result (λ text. Executes Call.Heartbeat self.old self.new (string_bytes text)) }
        ensures rest { KeepsButRing self.old self.new }
    {
        let value = self.ring.producer.heartbeat();
        format!(in self.alloc; "heartbeat {value}\n")
    }

    fn transmit(&mut self, type_id: i32, body: &[u8]) -> Result<String, AllocError>
        ensures line { IfOk result (λ text.
            TransmitsLine type_id body.now self.old.board self.new.board (string_bytes text)) }
        ensures rest { KeepsButBoard self.old self.new }
    {
        let sent = self.board.transmit(type_id, body);
        self.done(sent)
    }

    fn subscribe(&mut self) -> Result<String, AllocError>
        ensures line { IfOk result (λ text. SubscribesLine self.old.board self.new.board (string_bytes text)) }
        ensures rest { KeepsButBoard self.old self.new }
    {
        let made = self.board.subscribe(self.alloc)?;
        self.numbered("receiver", made)
    }

    fn receive(&mut self, number: usize) -> Result<String, LineFault>
        ensures line { IfOk result (λ text.
            ReceivesLine number self.old.board self.new.board (string_bytes text)) }
        ensures rest { KeepsButBoard self.old self.new }
        ensures bad { IfErr result (λ fault. fault ≢ LineFault.OutOfMemory → IsFree (held_in self.old.board.receivers) number) }
    {
        let Some(received) = self.board.receive(self.alloc, number) else {
            return Err(LineFault::Bad(LineError::NotHeld));
        };
        let received = received?;
        Ok(self.received(received)?)
    }

    /// Aborts the open claims, and joins receivers, listeners and watchers. Then closes all parts, and counts the
    /// messages that are left. Returns `InUse` if a part has another owner. None has, but no contract says so.
    pub fn close(self) -> Result<Ended, RunFault>
        ensures ended { IfOk result (EndsAs self) }
        ensures in_use { IfErr result (λ fault. fault ≡ RunFault.InUse) }
    {
        let Runner {
            ring,
            board,
            service,
            messages,
            serves,
            ..
        } = self;
        let Some(left) = ring.close() else {
            return Err(RunFault::InUse);
        };
        let _ = board.close();
        let served = service.close();
        Ok(Ended {
            messages,
            left: u64::from(left),
            served: serves.then_some(served),
        })
    }
}
