//! The conductor's work. It takes the commands of a read, applies each of them, and replies to it.
ghost use Rattle.ring_board.specs.Board.{heard_by, transmitted};
ghost use Rattle.ring_board.specs.Seats.{IsTransmitterOf, view_of, capacity_of, tail_of};
ghost use Rattle.ring_service.specs.Conducting.{AreUnused, IsConductorOf, Works, work_stop, consumer_of, manager_in};
ghost use Rattle.ring_service.specs.Conducting.{ledger_of, ring_view, transmitter_of, value_shares_of};
ghost use Rattle.ring_service.specs.{Fold.replied, Service.Serves};
ghost use Rattle.ring_service.specs.Serving.{IsReady, IsSameHandler, ledger_of as served_of, ActsOn};
ghost use Rattle.ring_layout.specs.{History.span, Lists.Begins, Places.max_position, Places.end_after};
ghost use Rattle.ring_rings.specs.Seats.{consumer_view, taken_of};
ghost use Rattle.std.specs.Prelude.{◌≡◌, ◌^◌, ◌≤◌, []};
ghost use Rattle.ring_counters.specs.Manager.{registry_of, IsManagerOf};
ghost use Rattle.ring_protocol.specs.{Command.content_of, declared.reply.Reply.TheVariants.Refused};
ghost use Rattle.ring_protocol.specs.declared.command.Request.TheVariants.{Free as FreeOf, Set as SetOf, Close as CloseOf};
ghost use Rattle.ring_service.specs.{Applied.applied, Applied.obeyed, Applying.Applies, Applying.allocates};

use crate::conductor::{Conductor, Work, WorkStop};
use ring_board::{Board, Transmitter};
use ring_counters::{CounterValues, CountersManager};
use ring_protocol::{
    Command, LONGEST_REPLY, Reply, decode_command, encode_reply, reply_type_ids as type_ids,
};
use ring_rings::{CommandSource, Consumer};
use ring_words::{Action, Handler, Stop};

fn work_stop(stopped: Stop) -> WorkStop
    ensures { result ≡ work_stop stopped }
{
    match stopped {
        Stop::Limit => WorkStop::Limit,
        Stop::Block => WorkStop::Block,
        Stop::Unpublished => WorkStop::Unpublished,
        Stop::Action => WorkStop::BoardEnd,
    }
}

/// Makes one controlled read, and applies its commands.
fn take<R: CommandSource>(
    ring: &R,
    consumer: &mut Consumer,
    limit: u32,
    serving: &mut Serving,
) -> Work
    requires consumer { R.is_consumer ring.now consumer.old }
    requires ready { IsReady serving.old }
    ensures consumer { R.is_consumer ring.now consumer.new }
    ensures ready { IsReady serving.new }
    ensures same { IsSameHandler serving.old serving.new }
    ensures works { Works serving.old.now limit (consumer_view consumer.old) (consumer_view consumer.new)
        (served_of serving.old) (served_of serving.new) result }
{
    let end = ring.controlled_read(consumer, limit, serving);
    Work {
        messages: u64::from(end.messages),
        stopped: work_stop(end.stopped),
    }
}

impl Conductor {
    /// Makes a conductor from a ring's consumer, a broadcast buffer's transmitter, and counters of which none was used.
    pub fn new(consumer: Consumer, transmitter: Transmitter, counters: CountersManager) -> Conductor
        requires consumer { taken_of consumer ≡ [] }
        requires transmitter { transmitted transmitter ≡ [] }
        requires counters { AreUnused counters }
        ensures consumer { consumer_of result ≡ consumer }
        ensures transmitter { transmitter_of result ≡ transmitter }
        ensures counters { manager_in result ≡ counters }
    {
        Conductor {
            consumer,
            transmitter,
            counters,
            received: 0,
        }
    }

    /// Returns the counters.
    pub fn counters(&self) -> &CountersManager
        ensures { result.now ≡ manager_in self.now }
    {
        &self.counters
    }

    /// Takes at most `limit` commands from the ring. Each command is applied to the counters at the moment `now`, which
    /// is in milliseconds and at most 2^62. It gets exactly one reply, which has its correlation id. The call takes no
    /// memory.
    ///
    /// The call stops as a controlled read of the ring does. It stops with `BoardEnd` if a reply of 12 bytes would end
    /// above 2^62 on the broadcast buffer. The command then stays in the ring and is not applied, even if its own reply
    /// would be shorter and would fit. `Block` without a message does not mean that the ring is empty. The next call
    /// goes on after the end of the buffer.
    pub fn do_work<R: CommandSource>(
        &mut self,
        ring: &R,
        board: &Board,
        values: &CounterValues,
        now: u64,
        limit: u32,
    ) -> Work
        requires conductor { IsConductorOf R.is_consumer ring.now board.now values.now self.old }
        requires now { now ≤ 2 ^ 62 }
        ensures conductor { IsConductorOf R.is_consumer ring.now board.now values.now self.new }
        ensures serves { Serves now self.old self.new result.messages }
        ensures works { Works now limit (ring_view self.old) (ring_view self.new)
            (ledger_of self.old) (ledger_of self.new) result }
        ensures grows { Begins (transmitted (transmitter_of self.old)) (transmitted (transmitter_of self.new)) }
        ensures heard { heard_by (transmitter_of self.new) ≡ heard_by (transmitter_of self.old) }
        ensures value_shares { value_shares_of self.new ≡ value_shares_of self.old }
    {
        let Conductor {
            consumer,
            transmitter,
            counters,
            received,
        } = self;
        let mut serving = Serving {
            now,
            counters,
            transmitter,
            board,
            values,
        };
        let work = take(ring, consumer, limit, &mut serving);
        *received += work.messages;
        work
    }
}

/// Takes the commands of one read, at one moment.
#[derive(Drop)]
pub(crate) struct Serving<'a> {
    pub(crate) now: u64,
    pub(crate) counters: &'a mut CountersManager,
    pub(crate) transmitter: &'a mut Transmitter,
    pub(crate) board: &'a Board,
    pub(crate) values: &'a CounterValues,
}

/// Transmits a reply.
fn answer(board: &Board, transmitter: &mut Transmitter, reply: &Reply)
    requires board { IsTransmitterOf board.now transmitter.old }
    requires room { end_after (capacity_of board.now) (tail_of transmitter.old) (span 12) ≤ max_position }
    ensures board { IsTransmitterOf board.now transmitter.new }
    ensures sent { view_of transmitter.new ≡ replied (view_of transmitter.old) reply.now }
{
    let mut body = [0; LONGEST_REPLY];
    let len = encode_reply(reply, &mut body);
    board
        .transmit(transmitter, reply.type_id(), &body[..len])
        .unwrap();
}

/// Applies a command and replies to it. Returns `Abort` and does nothing if there is no room for a reply.
fn serve(serving: &mut Serving, type_id: i32, body: &[u8]) -> Action
    requires ready { IsReady serving.old }
    ensures ready { IsReady serving.new }
    ensures acts { ActsOn serving.old (record { type_id = type_id; body = body.now }) serving.new result }
{
    let room = serving
        .board
        .check(serving.transmitter, type_ids::REFUSED, LONGEST_REPLY);
    if room.is_err() {
        return Action::Abort;
    }
    let reply = apply(serving.counters, serving.values, serving.now, type_id, body);
    answer(serving.board, serving.transmitter, &reply);
    Action::Continue
}

impl Handler for Serving<'_> {
    ghost ready = { λ s. IsReady s };

    ghost step = { λ s m t a. ActsOn s m t a };

    fn on_message(&mut self, type_id: i32, body: &[u8]) -> Action {
        serve(self, type_id, body)
    }
}

/// The counter that a command asks for.
#[derive(Clone, Copy)]
struct Wanted<'a> {
    type_id: i32,
    owner: u64,
    key: &'a [u8],
    label: &'a [u8],
}

/// Returns the reply to a command that was refused.
fn refused(correlation: u64, code: i32) -> Reply
    ensures { result ≡ Refused correlation code }
{
    Reply::Refused { correlation, code }
}

fn allocate(
    counters: &mut CountersManager,
    values: &CounterValues,
    now: u64,
    correlation: u64,
    wanted: Wanted<'_>,
) -> Reply
    requires { IsManagerOf values.now counters.old }
    ensures { Applies (allocates (registry_of counters.old) now correlation wanted.entry)
        counters.old counters.new result }
{
    let Wanted {
        type_id,
        owner,
        key,
        label,
    } = wanted;
    match counters.allocate_owned(values, now, type_id, key, label, correlation, owner) {
        Ok(id) => Reply::Allocated { correlation, id },
        Err(fault) => refused(correlation, fault.code()),
    }
}

fn free(counters: &mut CountersManager, now: u64, correlation: u64, id: u32) -> Reply
    requires { now ≤ 2 ^ 62 }
    ensures { Applies (obeyed now (registry_of counters.old) correlation (FreeOf id))
        counters.old counters.new result }
{
    match counters.free(now, id) {
        Ok(()) => Reply::Done { correlation },
        Err(fault) => refused(correlation, fault.code()),
    }
}

fn set(
    counters: &mut CountersManager,
    values: &CounterValues,
    correlation: u64,
    id: u32,
    value: i64,
) -> Reply
    requires { IsManagerOf values.now counters.old }
    ensures { Applies (obeyed 0 (registry_of counters.old) correlation (SetOf id value))
        counters.old counters.new result }
{
    match counters.set(values, id, value) {
        Ok(()) => Reply::Done { correlation },
        Err(fault) => refused(correlation, fault.code()),
    }
}

fn close(counters: &mut CountersManager, now: u64, correlation: u64, owner: u64) -> Reply
    requires { now ≤ 2 ^ 62 }
    ensures { Applies (obeyed now (registry_of counters.old) correlation (CloseOf owner))
        counters.old counters.new result }
{
    match counters.close_owner(now, owner) {
        Ok(freed) => Reply::Closed { correlation, freed },
        Err(fault) => refused(correlation, fault.code()),
    }
}

/// Applies a command at a moment, and returns its reply.
fn obey(
    counters: &mut CountersManager,
    values: &CounterValues,
    now: u64,
    command: Command<'_>,
) -> Reply
    requires values { IsManagerOf values.now counters.old }
    requires now { now ≤ 2 ^ 62 }
    ensures { let c = content_of command.entry in
        Applies (obeyed now (registry_of counters.old) c.correlation c.request) counters.old counters.new result }
{
    match command {
        Command::Allocate {
            correlation,
            type_id,
            key,
            label,
        } => {
            let wanted = Wanted {
                type_id,
                owner: 0,
                key,
                label,
            };
            allocate(counters, values, now, correlation, wanted)
        }
        Command::AllocateOwned {
            correlation,
            type_id,
            owner,
            key,
            label,
        } => {
            let wanted = Wanted {
                type_id,
                owner,
                key,
                label,
            };
            allocate(counters, values, now, correlation, wanted)
        }
        Command::Free { correlation, id } => free(counters, now, correlation, id),
        Command::Set {
            correlation,
            id,
            value,
        } => set(counters, values, correlation, id, value),
        Command::Close { correlation, owner } => close(counters, now, correlation, owner),
    }
}

/// Applies a message at a moment, and returns the one reply to it. If the message cannot be read, or the counters
/// refuse it, nothing changes. The reply is then `Refused`.
pub(crate) fn apply(
    counters: &mut CountersManager,
    values: &CounterValues,
    now: u64,
    type_id: i32,
    body: &[u8],
) -> Reply
    requires values { IsManagerOf values.now counters.old }
    requires now { now ≤ 2 ^ 62 }
    ensures { Applies (applied now (registry_of counters.old) (record { type_id = type_id; body = body.now }))
        counters.old counters.new result }
{
    match decode_command(type_id, body) {
        Ok(command) => obey(counters, values, now, command),
        Err(bad) => refused(bad.correlation(), bad.code()),
    }
}
