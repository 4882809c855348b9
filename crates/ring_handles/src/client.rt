//! A client in a handle, and what it does.
ghost use Rattle.std.specs.Prelude.{◌≡◌};
ghost use Rattle.ring_handles.specs.Calling.{number_in, poll_out, send_code, ClientBeat, WasPolled, WasSent};

use crate::code::{DONE, LAPPED, NO_MESSAGE, OTHER_REPLY, TOO_LONG};
use crate::identity::Identity;
use ring_ends::ClientEnd;
use ring_service::{Polled, Reply, Request, SendFault};

/// A client, with what its conductor shares.
#[derive(Drop)]
pub struct ClientSide {
    pub(crate) end: ClientEnd,
    /// Its conductor's number.
    pub(crate) identity: Identity,
}

/// The number of why a command was not sent.
fn send_number(fault: SendFault) -> i32
    ensures { result ≡ send_code fault }
{
    match fault {
        SendFault::TooLong => TOO_LONG,
        SendFault::Refused {
            correlation: _,
            reason,
        } => reason.code(),
    }
}

/// What a reply reports in addition to its kind.
fn number_in(reply: Reply) -> i64
    ensures { result ≡ number_in reply }
{
    match reply {
        Reply::Allocated { correlation: _, id } => i64::from(id),
        Reply::Done { correlation: _ } => 0,
        Reply::Refused {
            correlation: _,
            code,
        } => i64::from(code),
        Reply::Closed {
            correlation: _,
            freed,
        } => i64::from(freed),
    }
}

impl ClientSide {
    /// Makes one try to send a command, and reports its correlation id.
    pub fn send(&mut self, request: Request<&[u8]>, id: &mut u64) -> i32
        ensures { WasSent request.entry id.old id.new self.old self.new result }
    {
        match self.end.send(request) {
            Ok(correlation) => {
                *id = correlation;
                DONE
            }
            Err(fault) => send_number(fault),
        }
    }

    /// Takes the next message of the broadcast buffer, and reports of the reply that was asked about what it is.
    pub fn poll(
        &mut self,
        correlation: u64,
        kind: &mut i32,
        number: &mut i64,
        lapped: &mut u64,
    ) -> i32
        ensures { WasPolled correlation (poll_out kind.old number.old lapped.old)
            (poll_out kind.new number.new lapped.new) self.old self.new result }
    {
        match self.end.poll(correlation) {
            Polled::Answered(reply) => {
                *kind = reply.type_id();
                *number = number_in(reply);
                DONE
            }
            Polled::Another(_) => OTHER_REPLY,
            Polled::NoReply => OTHER_REPLY,
            Polled::Nothing => NO_MESSAGE,
            Polled::Lapped(missed) => {
                *lapped = missed.count;
                LAPPED
            }
        }
    }

    /// Loads the heartbeat that the conductor stored last.
    pub fn heartbeat(&mut self, value: &mut u64) -> i32
        ensures { ClientBeat value.new self.old self.new result }
    {
        *value = self.end.heartbeat();
        DONE
    }
}
