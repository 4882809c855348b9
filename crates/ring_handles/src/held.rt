//! What a handle can be for.
ghost use Rattle.std.specs.Prelude.{◌≡◌};
ghost use Rattle.ring_handles.specs.Kinds.{capacity_held};

use crate::adders::AdderSide;
use crate::boards::{ReceiverSide, TransmitterSide};
use crate::client::ClientSide;
use crate::conductor::ConductorSide;
use crate::consumer::ConsumerSide;
use crate::counters::{CountersSide, ReaderSide};
use crate::producer::ProducerSide;
use crate::raw::RawReceiverSide;

/// What a handle can be for.
#[derive(Drop)]
pub enum Held {
    /// Room that was taken for what a call makes.
    Vacant,
    Producer(ProducerSide),
    Consumer(ConsumerSide),
    Transmitter(TransmitterSide),
    Receiver(ReceiverSide),
    RawReceiver(RawReceiverSide),
    Counters(CountersSide),
    Reader(ReaderSide),
    Adder(AdderSide),
    Conductor(ConductorSide),
    Client(ClientSide),
}

impl Held {
    /// The bytes of the ring's or the broadcast buffer, if this is a producer, a consumer, a transmitter or a receiver.
    pub fn capacity(&self) -> Option<u32>
        ensures { result ≡ capacity_held self.now }
    {
        match self {
            Held::Producer(side) => Some(side.capacity()),
            Held::Consumer(side) => Some(side.capacity()),
            Held::Transmitter(side) => Some(side.capacity()),
            Held::Receiver(side) => Some(side.capacity()),
            Held::RawReceiver(side) => Some(side.capacity()),
            _ => None,
        }
    }
}
