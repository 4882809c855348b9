//! The calls that give clients their seats, and that take the seats back.
ghost use Rattle.std.specs.Prelude.{◌≡◌, ◌<◌, IfOk, OnErr, OnOk};
ghost use Rattle.ring_rings.specs.Seats.{shares_of};
ghost use Rattle.ring_storm.specs.Storming.{IsClientAt, AreEndpointsAt, IsNew, LendsSeats, TakesSeats, board_shares_of};

use crate::seats::{Endpoints, StormClient};
use crate::shared::Shared;
use ring_board::SubscribeFault;
use ring_rings::Bodies;
use ring_service::Client;
use std::alloc::Global;

impl<G, B: Bodies> Shared<'_, G, B> {
    /// Makes a client with its own producer and its own receiver. If there is no memory, nothing has changed.
    pub(crate) fn split_client(
        &self,
        alloc: Global,
        endpoints: &mut Endpoints,
        index: u32,
    ) -> Result<StormClient, SubscribeFault>
        requires endpoints { AreEndpointsAt self.now endpoints.old }
        requires index { index < 64 }
        requires shares { (1 < shares_of endpoints.old.producer) × (1 < board_shares_of endpoints.old.conductor) }
        ensures endpoints { AreEndpointsAt self.now endpoints.new }
        ensures client { IfOk result (λ c. IsClientAt self.now c × IsNew c × (c.index ≡ index)) }
        ensures lends { OnOk result (LendsSeats endpoints.old endpoints.new) }
        ensures err { OnErr result (endpoints.new ≡ endpoints.old) }
    {
        let receiver = endpoints.conductor.subscribe(alloc, self.board)?;
        let producer = match self.ring.split(&mut endpoints.producer) {
            Ok(producer) => producer,
            Err(_refused) => unreachable!(),
        };
        Ok(StormClient {
            index,
            client: Client::new(producer, receiver),
            counter: 0,
            seen: 0,
        })
    }

    /// Takes back a client's producer and receiver. Returns how many of its commands had their replies.
    pub(crate) fn join_client(&self, endpoints: &mut Endpoints, client: StormClient) -> u64
        requires endpoints { AreEndpointsAt self.now endpoints.old }
        requires client { IsClientAt self.now client }
        ensures endpoints { AreEndpointsAt self.now endpoints.new }
        ensures seats { TakesSeats client endpoints.old endpoints.new }
        ensures seen { result ≡ client.seen }
    {
        let StormClient {
            index: _,
            client,
            counter: _,
            seen,
        } = client;
        let (producer, receiver) = client.into_parts();
        self.ring.join(&mut endpoints.producer, producer);
        endpoints.conductor.join_receiver(self.board, receiver);
        seen
    }
}
