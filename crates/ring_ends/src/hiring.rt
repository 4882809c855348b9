//! What a conductor gives and takes back: clients, receivers of its replies, and readers of its values.
ghost use Rattle.std.specs.Prelude.{◌≡◌, ◌≢◌, ◌≤◌, ◌<◌, ◌++◌, ◌∷◌, [], IfErr, IfOk, None, OnOk, Some};
ghost use Rattle.std.specs.Arc.{arc_value};
ghost use Rattle.ring_rings.specs.{Ring.sent, Ring.AreMerged, Seats.shares_of};
ghost use Rattle.ring_board.specs.{Board.latest_of, Refusals.subscribe_refusal_of, Views.as_joined};
ghost use Rattle.ring_board.specs.{Seats.receiver_seat, Seats.IsReceiverOf};
ghost use Rattle.ring_board.specs.declared.fault.SubscribeFault.TheVariants.{NoShares};
ghost use Rattle.ring_service.specs.{Asking.client_seat, Finishing.joined_by, Finishing.replies_of, Service.sent_by};
ghost use Rattle.ring_service.specs.Conducting.{board_view, transmitter_of, value_shares_of};
ghost use Rattle.ring_ends.specs.{BoardEnd.copied, BoardEnd.subscribed_at};
ghost use Rattle.ring_ends.specs.Conducting.{Hires, LastReplyShare, LendsReceiver, LendsValues, MayNotHire, MovesShare};
ghost use Rattle.ring_ends.specs.Conducting.{KeepsProducer, TakesClient, TakesSeat, TakesValues};
ghost use Rattle.ring_ends.specs.declared.many_to_one.SplitFault.TheVariants.{OneShare};

use crate::client::ClientEnd;
use crate::conductor::ConductorEnd;
use crate::lending::{Lender, Shared};
use crate::many_to_one::SplitFault;
use crate::reader::ReaderEnd;
use crate::receiver::ReceiverEnd;
use ring_board::{CopyReceiver, SubscribeFault};
use ring_service::Client;
use std::alloc::Global;
use std::sync::Arc;

impl ConductorEnd {
    /// Moves a share of the broadcast buffer to a receiver of the replies, and returns the receiver with what the
    /// conductor shares.
    fn share_replies(
        &mut self,
        alloc: Global,
    ) -> Result<(Arc<Shared>, CopyReceiver), SubscribeFault>
        ensures shared { IfOk result (λ r. arc_value r.0 ≡ self.old.shared) }
        ensures receiver { IfOk result (λ r. IsReceiverOf self.old.shared.board r.1) }
        ensures moved { IfOk result (λ r. MovesShare self.old (receiver_seat r.1) self.new) }
        ensures spare { OnOk result (subscribe_refusal_of (board_view self.old.conductor).shares ≡ None) }
        ensures refused { IfErr result (λ fault. (self.new ≡ self.old) × (fault ≡ NoShares → LastReplyShare self.old)) }
    {
        let Ok(shared) = Arc::try_clone(&self.shared) else {
            return Err(SubscribeFault::OutOfMemory);
        };
        let receiver = self.conductor.subscribe(alloc, &shared.board)?;
        self.shares -= 1;
        Ok((shared, receiver))
    }

    /// Makes a client, with one share of the ring and one of the broadcast buffer. The client's receiver starts with the
    /// most recent reply. Returns `NoShares` if the ring or the broadcast buffer has one share left, and `OutOfMemory`
    /// if there is no memory or if the conductor has too many ends. After an error nothing has changed.
    pub fn client(&mut self, alloc: Global) -> Result<ClientEnd, SubscribeFault>
        ensures sent { IfOk result (λ client. (sent_by client.client ≡ [])
            × (sent self.new.producer ≡ sent self.old.producer)) }
        ensures hired { IfOk result (λ client. Hires self.old client self.new) }
        ensures spare { OnOk result ((shares_of self.old.producer ≢ 1)
            × (subscribe_refusal_of (board_view self.old.conductor).shares ≡ None)) }
        ensures refused { IfErr result (λ fault. (self.new ≡ self.old) × (fault ≡ NoShares → MayNotHire self.old)) }
    {
        if self.producer.shares() == 1 {
            return Err(SubscribeFault::NoShares);
        }
        // The receiver is made first, since the ring surely has a share to split off.
        let (shared, receiver) = self.share_replies(alloc)?;
        let producer = match shared.ring.split(&mut self.producer) {
            Ok(producer) => producer,
            Err(_refused) => unreachable!(),
        };
        Ok(ClientEnd {
            shared,
            client: Client::new(producer, receiver),
        })
    }

    /// Makes a receiver of the replies, which starts with the most recent reply, and takes one share of the broadcast
    /// buffer. Returns `NoShares` if the broadcast buffer has one share left, and `OutOfMemory` if there is no memory or
    /// if the conductor has too many ends. After an error nothing has changed.
    pub fn subscribe(&mut self, alloc: Global) -> Result<ReceiverEnd, SubscribeFault>
        ensures begins { IfOk result (λ r. (copied r.end ≡ [])
            × (subscribed_at r.end ≡ latest_of (transmitter_of self.old.conductor))) }
        ensures lent { IfOk result (λ r. LendsReceiver self.old r self.new) }
        ensures spare { OnOk result (subscribe_refusal_of (board_view self.old.conductor).shares ≡ None) }
        ensures refused { IfErr result (λ fault. (self.new ≡ self.old) × (fault ≡ NoShares → LastReplyShare self.old)) }
    {
        let (shared, receiver) = self.share_replies(alloc)?;
        Ok(ReceiverEnd {
            board: Lender::Lent(shared),
            receiver,
        })
    }

    /// Makes a reader of the counters' values, for another thread, with one share of the values. Returns `OneShare` if
    /// one share is left, and `OutOfMemory` if the conductor has too many ends. After an error nothing has changed.
    pub fn reader(&mut self) -> Result<ReaderEnd, SplitFault>
        ensures lent { IfOk result (λ reader. LendsValues self.old reader self.new) }
        ensures spare { OnOk result (1 < value_shares_of self.old.conductor) }
        ensures refused { IfErr result (λ fault. (self.new ≡ self.old)
            × (fault ≡ OneShare → value_shares_of self.old.conductor ≤ 1)) }
    {
        let Ok(shared) = Arc::try_clone(&self.shared) else {
            return Err(SplitFault::OutOfMemory);
        };
        match self.conductor.value_reader(&shared.values) {
            Ok(reader) => Ok(ReaderEnd {
                values: Lender::Lent(shared),
                reader,
            }),
            Err(_) => Err(SplitFault::OneShare),
        }
    }

    /// Takes a client of this conductor back, with its shares of the ring and of the broadcast buffer. What its receiver
    /// copied are runs of the replies.
    pub fn join(&mut self, client: ClientEnd)
        requires { client.shared ≡ self.old.shared }
        ensures sent { AreMerged (sent self.old.producer) (sent_by client.client) (sent self.new.producer) }
        ensures heard { joined_by self.new.conductor
            ≡ joined_by self.old.conductor ++ as_joined (client_seat client.client).0 ∷ [] }
        ensures taken { TakesClient self.old client self.new }
    {
        let ClientEnd { shared: _, client } = client;
        let (producer, receiver) = client.into_parts();
        let shared: &Shared = &self.shared;
        shared.ring.join(&mut self.producer, producer);
        self.conductor.join_receiver(&shared.board, receiver);
        self.shares += 1;
    }

    /// Takes a receiver of this conductor's replies back, with its share. What the receiver copied are runs of the
    /// replies.
    pub fn join_receiver(&mut self, receiver: ReceiverEnd)
        requires { receiver.lender ≡ Some self.old.shared }
        ensures transmitted { replies_of self.new.conductor ≡ replies_of self.old.conductor }
        ensures heard { joined_by self.new.conductor
            ≡ joined_by self.old.conductor ++ as_joined receiver.end.knows.0 ∷ [] }
        ensures taken { TakesSeat self.old receiver.end.knows self.new }
        ensures keeps { KeepsProducer self.old self.new }
    {
        let receiver = receiver.into_receiver();
        let shared: &Shared = &self.shared;
        self.conductor.join_receiver(&shared.board, receiver);
        self.shares += 1;
    }

    /// Takes a reader of this conductor's values back, with its share. What the reader loaded are values after first
    /// parts of the writes.
    pub fn join_reader(&mut self, reader: ReaderEnd)
        requires { reader.lender ≡ Some self.old.shared }
        ensures { TakesValues self.old reader self.new }
    {
        let reader = reader.into_reader();
        let shared: &Shared = &self.shared;
        self.conductor.join_value_reader(&shared.values, reader);
    }
}
