//! A client of the conductor. It sends commands into the ring, and receives their replies from the broadcast buffer.
ghost use Rattle.std.specs.Prelude.{◌≡◌};

use crossbeam_utils::Backoff;
use ring_ends::ClientEnd;
use ring_rings::{ClaimFault, TryFault};
use ring_service::{Polled, Reply, Request, SendFault};
use std::sync::Wait;

/// The number of commands that are sent before the caller waits for their replies. The commands of two callers fill the
/// ring.
const BATCH: usize = 8;

/// The number of these batches.
const BATCHES: u32 = 125;

/// A client that counts up, with the results of its run.
#[derive(Drop)]
pub struct Caller {
    pub label: &'static str,
    pub client: ClientEnd,
    /// The number of replies to its commands.
    pub replies: u32,
    /// The number of times that the client was lapped.
    pub laps: u32,
}

// Each call states that the caller stays a client of the same conductor.
impl Caller {
    /// Returns a caller that has sent nothing yet.
    pub fn new(label: &'static str, client: ClientEnd) -> Caller
        ensures { result.client ≡ client }
    {
        Caller {
            label,
            client,
            replies: 0,
            laps: 0,
        }
    }

    /// Sends a command, and waits while the ring is full. Returns the correlation id, or `None` if the ring never takes
    /// the command.
    fn send<R: Wait>(&mut self, rt: &R, request: Request<&[u8]>) -> Option<u64>
        ensures { self.new.client.shared ≡ self.old.client.shared }
    {
        let correlation = self.client.next_correlation_id();
        let backoff = Backoff::new();
        for _ in rt.forever() {
            let reason = match self.client.send_as(correlation, request) {
                Ok(_) => return Some(correlation),
                Err(SendFault::Refused { reason, .. }) => reason,
                Err(SendFault::TooLong) => return None,
            };
            match reason {
                // Lost the race: retry immediately.
                TryFault::Contended { .. } => {}
                // Full: first the conductor has to take something.
                TryFault::Refused(ClaimFault::InsufficientCapacity { .. }) => backoff.snooze(),
                // Too long for this ring, or the positions are used up: that stays so.
                TryFault::Refused(_) => return None,
            }
        }
        unreachable!()
    }

    /// Waits for the reply to the command with this correlation id. Returns `None` if replies were missed. The result
    /// of the command is then unknown.
    fn hear<R: Wait>(&mut self, rt: &R, correlation: u64) -> Option<Reply>
        ensures { self.new.client.shared ≡ self.old.client.shared }
    {
        let backoff = Backoff::new();
        for _ in rt.forever() {
            match self.client.poll(correlation) {
                Polled::Answered(reply) => {
                    self.replies = self.replies.saturating_add(1);
                    return Some(reply);
                }
                // This is the reply to another command, or one that is older than this client. More messages may come
                // after it.
                Polled::Another(_) | Polled::NoReply => backoff.reset(),
                Polled::Nothing => backoff.snooze(),
                Polled::Lapped(_) => {
                    self.laps = self.laps.saturating_add(1);
                    return None;
                }
            }
        }
        unreachable!()
    }

    /// Sets the counter to the next numbers, one command for each, and then waits for their replies.
    fn set_batch<R: Wait>(&mut self, rt: &R, id: u32, first: i64) -> Option<()>
        ensures { self.new.client.shared ≡ self.old.client.shared }
    {
        let mut sent = [0; BATCH];
        for (value, slot) in (first..).zip(sent.iter_mut()) {
            *slot = self.send(rt, Request::Set { id, value })?;
        }
        for correlation in sent {
            self.hear(rt, correlation)?;
        }
        Some(())
    }

    /// Allocates a counter with the caller's label, and sets it to 1, 2 and so on.
    fn count_up<R: Wait>(&mut self, rt: &R) -> Option<()>
        ensures { self.new.client.shared ≡ self.old.client.shared }
    {
        let allocate: Request<&[u8]> = Request::Allocate {
            type_id: 1,
            key: &[],
            label: self.label.as_bytes(),
        };
        let correlation = self.send(rt, allocate)?;
        let Reply::Allocated { id, .. } = self.hear(rt, correlation)? else {
            return None;
        };
        for batch in 0..BATCHES {
            let first = BATCH as u32 * batch + 1;
            self.set_batch(rt, id, i64::from(first))?;
        }
        Some(())
    }

    /// Runs the caller to its end. Its client always comes back. If the client were dropped on a thread, the client
    /// would be lost, and the conductor could never finish.
    pub fn run<R: Wait>(mut self, rt: &R) -> Caller
        ensures { result.client.shared ≡ self.client.shared }
    {
        let _ = self.count_up(rt);
        self
    }
}
