//! What a conductor takes back.
ghost use Rattle.std.specs.Prelude.{◌≡◌, IfErr, OnOk, Some};
ghost use Rattle.ring_handles.specs.Boards.{lender_of};
ghost use Rattle.ring_handles.specs.Seating.{IsForeign, IsOfThisConductor, TakesClient, TakesReader, TakesReceiver};

use crate::boards::ReceiverSide;
use crate::client::ClientSide;
use crate::code::OTHER_RING;
use crate::conductor::ConductorSide;
use crate::counters::ReaderSide;

impl ConductorSide {
    /// Takes a client back, with its shares of ring and broadcast buffer. Otherwise it comes back.
    pub fn join(&mut self, client: ClientSide) -> Result<(), (i32, ClientSide)>
        requires { IsOfThisConductor self.old client.identity (Some client.end.shared) }
        ensures joined { OnOk result (TakesClient self.old client self.new) }
        ensures refused { IfErr result (λ r. (self.new ≡ self.old) × (r.1 ≡ client)
            × IsForeign self.old client.identity (Some client.end.shared) r.0) }
    {
        if !self.identity.is(client.identity) {
            return Err((OTHER_RING, client));
        }
        self.end.join(client.end);
        Ok(())
    }

    /// Takes a receiver of the replies back, with its share. Otherwise it comes back.
    pub fn join_receiver(&mut self, receiver: ReceiverSide) -> Result<(), (i32, ReceiverSide)>
        requires { IsOfThisConductor self.old receiver.identity (lender_of receiver) }
        ensures joined { OnOk result (TakesReceiver self.old receiver self.new) }
        ensures refused { IfErr result (λ r. (self.new ≡ self.old) × (r.1 ≡ receiver)
            × IsForeign self.old receiver.identity (lender_of receiver) r.0) }
    {
        if !receiver.end.is_lent() || !self.identity.is(receiver.identity) {
            return Err((OTHER_RING, receiver));
        }
        self.end.join_receiver(receiver.end);
        Ok(())
    }

    /// Takes a reader of the values back, with its share. Otherwise it comes back.
    pub fn join_reader(&mut self, reader: ReaderSide) -> Result<(), (i32, ReaderSide)>
        requires { IsOfThisConductor self.old reader.identity reader.end.lender }
        ensures joined { OnOk result (TakesReader self.old reader self.new) }
        ensures refused { IfErr result (λ r. (self.new ≡ self.old) × (r.1 ≡ reader)
            × IsForeign self.old reader.identity reader.end.lender r.0) }
    {
        if !reader.end.is_lent() || !self.identity.is(reader.identity) {
            return Err((OTHER_RING, reader));
        }
        self.end.join_reader(reader.end);
        Ok(())
    }
}
