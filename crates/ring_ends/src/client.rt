//! A client with what its conductor shares.
ghost use Rattle.std.specs.Prelude.{◌≡◌, IfOk, OnErr, OnOk};
ghost use Rattle.ring_table.specs.ServiceSteps.{DrawsId, LoadsHeartbeat};
ghost use Rattle.ring_service.specs.{Asking.client_seat, Asking.client_view, Asking.IsHeard, Service.sent_by};
ghost use Rattle.ring_service.specs.Service.{Polls, SendsRequest};
ghost use Rattle.ring_ends.specs.Conducting.{ring_bytes, KeepsReceiver, KeepsSender, TriesSend, TriesSendAs};

use crate::lending::Shared;
use ring_protocol::Request;
use ring_service::{Client, Polled, SendFault};
use std::marker::Model;
use std::sync::Arc;

/// A client, with the ring of its commands and the broadcast buffer of the replies, which its conductor shares.
#[derive(Drop)]
pub struct ClientEnd {
    pub(crate) shared: Arc<Shared>,
    pub(crate) client: Client,
}

impl Model for ClientEnd {
    ghost use Rattle.std.specs.Prelude.{◌≡◌};
    ghost use Rattle.std.specs.Arc.{arc_value};
    ghost use Rattle.ring_rings.specs.Seats.{open_claims_of, IsProducerOf};
    ghost use Rattle.ring_board.specs.Seats.{IsReceiverOf};
    ghost use Rattle.ring_service.specs.Asking.{producer_of, receiver_of};
    ghost use Rattle.ring_ends.specs.Conducting.{client_code, SeatedClient};

    ghost Value = { SeatedClient };

    ghost coded = { client_code };

    ghost view = { λ e. record { shared = arc_value e.shared; client = e.client } };

    ghost invariant = { λ e. IsProducerOf (arc_value e.shared).ring (producer_of e.client)
        × (open_claims_of (producer_of e.client) ≡ 0) × IsReceiverOf (arc_value e.shared).board (receiver_of e.client) };
}

impl ClientEnd {
    /// Draws the correlation id of a command, for `send_as`.
    pub fn next_correlation_id(&mut self) -> u64
        ensures sends { sent_by self.new.client ≡ sent_by self.old.client }
        ensures draws { DrawsId (client_view self.old.client) result (client_view self.new.client) }
        ensures keeps { KeepsReceiver self.old self.new }
    {
        self.client.next_correlation_id(&self.shared.ring)
    }

    /// Makes one try to send a command with a correlation id that was drawn for the command. After an error nothing was
    /// sent, and the call can be made again with the same id. The errors are those of `Client::send_as`.
    pub fn send_as(&mut self, correlation: u64, request: Request<&[u8]>) -> Result<(), SendFault>
        ensures sends { OnOk result (SendsRequest request.entry correlation self.old.client self.new.client)
            × OnErr result (sent_by self.new.client ≡ sent_by self.old.client) }
        ensures does { TriesSendAs request.entry correlation self.old result self.new }
        ensures keeps { KeepsReceiver self.old self.new }
    {
        self.client.send_as(&self.shared.ring, correlation, request)
    }

    /// Draws a correlation id, makes one try to send a command with it, and returns the id. The errors are those of
    /// `Client::send`.
    pub fn send(&mut self, request: Request<&[u8]>) -> Result<u64, SendFault>
        ensures sends { IfOk result (λ id. SendsRequest request.entry id self.old.client self.new.client)
            × OnErr result (sent_by self.new.client ≡ sent_by self.old.client) }
        ensures does { TriesSend request.entry self.old result self.new }
        ensures keeps { KeepsReceiver self.old self.new }
    {
        self.client.send(&self.shared.ring, request)
    }

    /// Takes the next message of the broadcast buffer, for a caller that waits for the reply to the command with this
    /// correlation id. It never waits.
    pub fn poll(&mut self, correlation: u64) -> Polled
        ensures polls { Polls correlation self.old.client self.new.client result }
        ensures heard { IsHeard correlation (client_seat self.old.client) (client_seat self.new.client) result }
        ensures keeps { KeepsSender self.old self.new }
    {
        self.client.poll(&self.shared.board, correlation)
    }

    /// Loads the heartbeat that the conductor stored last.
    pub fn heartbeat(&mut self) -> u64
        ensures sends { sent_by self.new.client ≡ sent_by self.old.client }
        ensures loads { LoadsHeartbeat (ring_bytes self.old) (client_view self.old.client) result
            (client_view self.new.client) }
        ensures keeps { KeepsReceiver self.old self.new }
    {
        self.client.heartbeat(&self.shared.ring)
    }
}
