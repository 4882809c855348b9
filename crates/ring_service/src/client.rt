//! The client of a conductor. It sends commands and receives replies.
ghost use Rattle.ring_board.specs.Seats.{IsReceiverOf};
ghost use Rattle.ring_rings.specs.Claiming.{RefusesTry, Writes};
ghost use Rattle.ring_rings.specs.Seats.{capacity_of, IsProducerOf, MayClaim, OpensNone};
ghost use Rattle.ring_table.specs.ServiceSteps.{DrawsId, LoadsHeartbeat};
ghost use Rattle.std.specs.Prelude.{◌≡◌, length, IfErr, IfOk, OnErr, OnOk};

use ring_board::{Board, CopyReceiver, Lapped};
use ring_protocol::{LONGEST_COMMAND, Reply, Request, decode_reply, encode_request};
use ring_rings::{Bodies, Kind, Producer, Ring, TryFault};
use thiserror::Error;

/// Sends commands through a ring of either kind, and receives the replies from a broadcast buffer. One thread at a time
/// uses a client.
#[derive(Drop)]
pub struct Client {
    pub(crate) producer: Producer,
    pub(crate) receiver: CopyReceiver,
    pub(crate) buffer: [u8; LONGEST_COMMAND],
    ghost wide: { length buffer ≡ 520 },
}

/// The reason why a command was not sent.
#[derive(Clone, Copy, Debug, PartialEq, Eq, Error)]
pub enum SendFault {
    /// The command takes more than `LONGEST_COMMAND` bytes.
    #[error("the command takes more than 520 bytes")]
    TooLong,
    /// The ring refused the command with this correlation id. The id is not drawn again.
    #[error("{reason}")]
    Refused { correlation: u64, reason: TryFault },
}

/// The result of a poll for a reply.
#[derive(Clone, Copy, Debug, PartialEq, Eq)]
pub enum Polled {
    /// The reply to the command for which the caller polls.
    Answered(Reply),
    /// The reply to another command, of this client or of another client.
    Another(Reply),
    /// A message that is not a reply. A conductor transmits no such message.
    NoReply,
    /// No message has come yet.
    Nothing,
    /// Replies were overwritten before the client copied them. The results of the commands in flight are unknown. Each
    /// of these commands may have been applied, and its reply may be among those that were overwritten.
    Lapped(Lapped),
}

impl Client {
    ghost use Rattle.ring_service.specs.Asking.{IsHeard, IsSendable, RefusesAs, RefusesSend, Sends, SendsAs};
    ghost use Rattle.ring_service.specs.Asking.{client_seat, client_view, producer_of, receiver_of};
    ghost use Rattle.ring_service.specs.Service.{sent_by, Polls, SendsRequest};

    /// Makes a client of a producer of the command ring and a receiver of the broadcast buffer with the replies.
    pub fn new(producer: Producer, receiver: CopyReceiver) -> Client
        ensures producer { producer_of result ≡ producer }
        ensures receiver { receiver_of result ≡ receiver }
    {
        Client {
            producer,
            receiver,
            buffer: [0; LONGEST_COMMAND],
        }
    }

    /// Returns the producer and the receiver, so that they can be joined.
    pub fn into_parts(self) -> (Producer, CopyReceiver)
        ensures producer { result.0 ≡ producer_of self }
        ensures receiver { result.1 ≡ receiver_of self }
    {
        let Client {
            producer,
            receiver,
            buffer: _,
        } = self;
        (producer, receiver)
    }

    /// Draws the correlation id of a command, for `send_as`.
    pub fn next_correlation_id<K, B: Bodies>(&mut self, ring: &Ring<K, B>) -> u64
        requires { IsProducerOf ring.now (producer_of self.old) }
        ensures producer { IsProducerOf ring.now (producer_of self.new) }
        ensures same { sent_by self.new ≡ sent_by self.old }
        ensures draws { DrawsId (client_view self.old) result (client_view self.new) }
        ensures keeps { OpensNone ring.now (producer_of self.old) (producer_of self.new) }
        ensures receiver { receiver_of self.new ≡ receiver_of self.old }
    {
        ring.next_correlation_id(&mut self.producer)
    }

    /// Loads the heartbeat that the conductor stored last, by one step. The result is 0 if the conductor stored none.
    /// It is never older than a heartbeat that this client loaded before. The caller judges whether a conductor that no
    /// longer stores a heartbeat is alive.
    pub fn heartbeat<K, B: Bodies>(&mut self, ring: &Ring<K, B>) -> u64
        requires { IsProducerOf ring.now (producer_of self.old) }
        ensures producer { IsProducerOf ring.now (producer_of self.new) }
        ensures same { sent_by self.new ≡ sent_by self.old }
        ensures loads { LoadsHeartbeat (capacity_of ring.now) (client_view self.old) result (client_view self.new) }
        ensures keeps { OpensNone ring.now (producer_of self.old) (producer_of self.new) }
        ensures receiver { receiver_of self.new ≡ receiver_of self.old }
    {
        ring.heartbeat(&mut self.producer)
    }

    /// Makes one try to send a command with a correlation id that was drawn for the command. The call never waits, and
    /// takes no memory.
    ///
    /// Returns `TooLong` if the command has more than `LONGEST_COMMAND` bytes, and `Refused` if `Ring::try_write`
    /// refuses it. After an error nothing was written, and the call can be made again with the same id.
    pub fn send_as<K: Kind, B: Bodies>(
        &mut self,
        ring: &Ring<K, B>,
        correlation: u64,
        request: Request<&[u8]>,
    ) -> Result<(), SendFault>
        requires producer { IsProducerOf ring.now (producer_of self.old) }
        requires sole { MayClaim K.many (producer_of self.old) }
        ensures producer { IsProducerOf ring.now (producer_of self.new) }
        ensures sends { OnOk result (SendsRequest request.entry correlation self.old self.new)
            × OnErr result (sent_by self.new ≡ sent_by self.old) }
        ensures sent { OnOk result (IsSendable request.entry × SendsAs (Writes K.many) (capacity_of ring.now)
            correlation request.entry (client_view self.old) (client_view self.new)) }
        ensures refused { IfErr result (λ fault. RefusesAs (RefusesTry K.many) (capacity_of ring.now) correlation
            request.entry (client_view self.old) fault (client_view self.new)) }
        ensures keeps { OpensNone ring.now (producer_of self.old) (producer_of self.new) }
        ensures receiver { receiver_of self.new ≡ receiver_of self.old }
    {
        let Some(len) = encode_request(correlation, request, self.buffer.as_mut_slice()) else {
            return Err(SendFault::TooLong);
        };
        match ring.try_write(&mut self.producer, request.type_id(), &self.buffer[..len]) {
            Ok(()) => Ok(()),
            Err(reason) => Err(SendFault::Refused {
                correlation,
                reason,
            }),
        }
    }

    /// Draws a correlation id, makes one try to send the command with this id, and returns the id. The call never
    /// waits, and takes no memory.
    ///
    /// Returns `TooLong` if the command has more than `LONGEST_COMMAND` bytes, and `Refused` if `Ring::try_write`
    /// refuses it. No id is drawn for a command that is too long. After an error nothing was written. The id in
    /// `Refused` is not drawn again, and `send_as` can try again with it.
    pub fn send<K: Kind, B: Bodies>(
        &mut self,
        ring: &Ring<K, B>,
        request: Request<&[u8]>,
    ) -> Result<u64, SendFault>
        requires producer { IsProducerOf ring.now (producer_of self.old) }
        requires sole { MayClaim K.many (producer_of self.old) }
        ensures producer { IsProducerOf ring.now (producer_of self.new) }
        ensures sends { IfOk result (λ correlation. SendsRequest request.entry correlation self.old self.new)
            × OnErr result (sent_by self.new ≡ sent_by self.old) }
        ensures sent { IfOk result (λ correlation. IsSendable request.entry × Sends (Writes K.many)
            (capacity_of ring.now) request.entry (client_view self.old) correlation (client_view self.new)) }
        ensures refused { IfErr result (λ fault. RefusesSend (RefusesTry K.many) (capacity_of ring.now) request.entry
            (client_view self.old) fault (client_view self.new)) }
        ensures keeps { OpensNone ring.now (producer_of self.old) (producer_of self.new) }
        ensures receiver { receiver_of self.new ≡ receiver_of self.old }
    {
        match request.encoded_len() {
            Some(len) if len <= LONGEST_COMMAND => {}
            _ => return Err(SendFault::TooLong),
        }
        let correlation = self.next_correlation_id(ring);
        self.send_as(ring, correlation, request)?;
        Ok(correlation)
    }

    /// Takes the next message of the broadcast buffer, for a caller that waits for the reply to the command with this
    /// correlation id. The call never waits, and takes no memory.
    ///
    /// After `Lapped` the next call goes on with the most recent reply. The bytes that the client missed begin at the
    /// `place` in `Lapped`.
    pub fn poll(&mut self, board: &Board, correlation: u64) -> Polled
        requires { IsReceiverOf board.now (receiver_of self.old) }
        ensures receiver { IsReceiverOf board.now (receiver_of self.new) }
        ensures polls { Polls correlation self.old self.new result }
        ensures heard { IsHeard correlation (client_seat self.old) (client_seat self.new) result }
        ensures producer { producer_of self.new ≡ producer_of self.old }
    {
        match self.receiver.receive(board) {
            Ok(Some(copied)) => match decode_reply(copied.type_id, copied.body) {
                Ok(reply) if reply.correlation() == correlation => Polled::Answered(reply),
                Ok(reply) => Polled::Another(reply),
                Err(_bad) => Polled::NoReply,
            },
            Ok(None) => Polled::Nothing,
            Err(lapped) => Polled::Lapped(lapped),
        }
    }
}
