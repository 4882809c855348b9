//! The client of a storm.
ghost use Rattle.std.specs.Prelude.{◌≡◌, ℕ, ◌+◌, ◌%◌, ◌^◌, ◌<◌, ◌≤◌, [], ◌∷◌, ◌++◌, length, take};
ghost use Rattle.std.specs.Prelude.{IfNone, IfSome, OnSome};
ghost use Rattle.std.specs.Bool.{OnFalse, OnTrue};
ghost use Rattle.ring_board.specs.Seats.{IsReceiverOf};
ghost use Rattle.ring_protocol.specs.Command.{asked, content_of_request};
ghost use Rattle.ring_service.specs.Asking.{producer_of, receiver_of};
ghost use Rattle.ring_storm.specs.Storming.{HasWorked, IsClientAt, IsClientSeat, IsNew, history_of, sent_by};
ghost use Rattle.ring_storm.specs.Turns.{Adds, ClientHistory, Extends, IsAnswered, Lengthens, Turns};
ghost use Rattle.ring_storm.specs.Turns.{claims_by, copies_by, draws_by, label_of, numbered};

use crate::gate::Gate;
use crate::seats::StormClient;
use crate::shared::Shared;
use crossbeam_utils::Backoff;
use ring_protocol::Reply;
use ring_rings::{Bodies, ManyToOne, Ring};
use ring_service::{Client, Polled, Request};

/// The type of the clients' counters.
const COUNTER_TYPE: i32 = 1;

/// Returns the label of a client's counter, and the label's length. The label is `c` and the client's number, which is
/// below 100.
fn label_of(client: u32) -> ([u8; 3], usize)
    requires { client < 100 }
    ensures length { result.1 ≤ 3 }
    ensures label { take result.1 result.0 ≡ label_of client }
{
    let tens = b'0' + (client / 10) as u8;
    let ones = b'0' + (client % 10) as u8;
    if client < 10 {
        ([b'c', ones, 0], 2)
    } else {
        ([b'c', tens, ones], 3)
    }
}

/// Returns the request of a client's command with this number. The first command allocates a counter with the label.
/// Each later command sets the counter to the command's number.
fn request_of(label: &[u8], counter: u32, number: u32) -> Request<&[u8]>
    ensures { content_of_request result ≡ numbered label.now counter number }
{
    if number == 1 {
        Request::Allocate {
            type_id: COUNTER_TYPE,
            key: &[],
            label,
        }
    } else {
        Request::Set {
            id: counter,
            value: i64::from(number),
        }
    }
}

/// Tries once to send a command. The ring refuses the command while it is full, or if another client was faster.
fn try_send<B: Bodies>(
    ring: &Ring<ManyToOne, B>,
    client: &mut Client,
    correlation: u64,
    request: Request<&[u8]>,
) -> bool
    requires { IsClientSeat ring.now (producer_of client.old) }
    ensures seat { IsClientSeat ring.now (producer_of client.new) }
    ensures sent { OnTrue result
        (Adds (asked request.entry correlation) (claims_by client.old) (claims_by client.new)) }
    ensures refused { OnFalse result (claims_by client.new ≡ claims_by client.old) }
    ensures draws { draws_by client.new ≡ draws_by client.old }
    ensures receiver { receiver_of client.new ≡ receiver_of client.old }
{
    client.send_as(ring, correlation, request).is_ok()
}

impl<G: Gate, B: Bodies> Shared<'_, G, B> {
    /// Waits until the gate lets the client send.
    fn wait_for_gate(&self, client: u32, number: u32) -> bool {
        let backoff = Backoff::new();
        for _ in 0..self.plan.turns {
            if self.is_stopped() {
                return false;
            }
            if self.gate.may_send(client, number) {
                return true;
            }
            backoff.snooze();
        }
        false
    }

    /// Draws a correlation id, waits until the command with it is sent, and returns the id.
    fn send(&self, client: &mut Client, request: Request<&[u8]>) -> Option<u64>
        requires { IsClientSeat self.now.ring.now (producer_of client.old) }
        ensures seat { IsClientSeat self.now.ring.now (producer_of client.new) }
        ensures sent { IfSome result (λ correlation.
            Adds (asked request.entry correlation) (claims_by client.old) (claims_by client.new)) }
        ensures refused { IfNone result (claims_by client.new ≡ claims_by client.old) }
        ensures drawn { (number : ℕ) × (draws_by client.new ≡ draws_by client.old ++ number ∷ [])
            × IfSome result (λ correlation. correlation ≡ number % 2 ^ 64) }
        ensures receiver { receiver_of client.new ≡ receiver_of client.old }
    {
        let correlation = client.next_correlation_id(self.ring);
        let backoff = Backoff::new();
        for _ in 0..self.plan.turns {
            if self.is_stopped() {
                return None;
            }
            if try_send(self.ring, client, correlation, request) {
                return Some(correlation);
            }
            backoff.snooze();
        }
        None
    }

    /// Waits for the reply to the command with this correlation id.
    fn hear(&self, client: &mut Client, correlation: u64) -> Option<Reply>
        requires { IsReceiverOf self.now.board.now (receiver_of client.old) }
        ensures receiver { IsReceiverOf self.now.board.now (receiver_of client.new) }
        ensures heard { IfSome result (λ reply.
            IsAnswered correlation reply (copies_by client.old) (copies_by client.new)) }
        ensures grows { Lengthens (copies_by client.old) (copies_by client.new) }
        ensures producer { producer_of client.new ≡ producer_of client.old }
    {
        let backoff = Backoff::new();
        for _ in 0..self.plan.turns {
            if self.is_stopped() {
                return None;
            }
            match client.poll(self.board, correlation) {
                Polled::Answered(reply) => return Some(reply),
                // The next message may already be there.
                Polled::Another(_) | Polled::NoReply => backoff.reset(),
                Polled::Nothing | Polled::Lapped(_) => backoff.snooze(),
            }
        }
        None
    }

    /// Reports to the gate that the reply to the client's newest command came. The command has this number. Only this
    /// function reports to the gate.
    fn tell_answered(&self, client: &StormClient, number: u32)
        requires heard { (before : ClientHistory) × Turns client.now.index number before (history_of client.now) }
    {
        self.gate.answered(client.index, number);
    }

    /// Sends one command and waits for its reply. Returns `None` if a wait took all its turns.
    fn command(&self, client: &mut StormClient, number: u32) -> Option<()>
        requires { IsClientAt self.now client.old }
        ensures client { IsClientAt self.now client.new }
        ensures turn { OnSome result (Turns client.old.index number (history_of client.old) (history_of client.new)) }
        ensures grows { Extends (history_of client.old) (history_of client.new) }
        ensures sent { sent_by (producer_of client.new.client) ≤ sent_by (producer_of client.old.client) + 1 }
        ensures drawn { length (draws_by client.new.client) ≤ length (draws_by client.old.client) + 1 }
        ensures same { (client.new.index ≡ client.old.index) × (client.new.seen ≡ client.old.seen) }
    {
        if !self.wait_for_gate(client.index, number) {
            return None;
        }
        let (label, label_len) = label_of(client.index);
        let request = request_of(&label[..label_len], client.counter, number);
        let correlation = self.send(&mut client.client, request)?;
        if let Reply::Allocated { id, .. } = self.hear(&mut client.client, correlation)? {
            client.counter = id;
        }
        self.tell_answered(client, number);
        Some(())
    }

    /// Sends all commands of a client. A client that gives up stops all other threads. A test shows this, and no clause
    /// says it.
    pub(crate) fn run_client(&self, mut client: StormClient) -> StormClient
        requires client { IsClientAt self.now client }
        requires new { IsNew client }
        ensures client { IsClientAt self.now result }
        ensures worked { HasWorked self.now.plan.commands client.index result }
    {
        for number in 1..=self.plan.commands {
            if self.command(&mut client, number).is_none() {
                self.stop();
                break;
            }
            client.seen += 1;
        }
        client
    }
}
