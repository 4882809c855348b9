//! The ends of rings of either kind.
ghost use Rattle.std.specs.Prelude.{◌≡◌, ◌≢◌, false, true};
ghost use Rattle.ring_handles.specs.Side.{consumer_in, IsReaderOfKind};

use crate::producer::ProducerSide;
use ring_ends::{ConsumerEnd, NumberedEnd};
use ring_rings::{InSlots, ManyToOne, OneToOne};

/// A producer of a ring of either kind, with its ring and its open claims.
#[derive(Drop)]
pub enum AnyProducer {
    /// One of any number of producers of its ring.
    Many(NumberedEnd<ManyToOne, InSlots>),
    /// The only producer of its ring.
    One(NumberedEnd<OneToOne, InSlots>),
}

/// Works on a producer of either kind, which the work names.
macro_rules! on_end {
    ($any:expr, $end:ident => $work:expr) => {
        match $any {
            $crate::ring::AnyProducer::Many($end) => $work,
            $crate::ring::AnyProducer::One($end) => $work,
        }
    };
}

pub(crate) use on_end;

/// A consumer of a ring of either kind, with its ring.
#[derive(Drop)]
pub enum AnyConsumer {
    /// Any number of producers write its ring.
    Many(ConsumerEnd<ManyToOne, InSlots>),
    /// One producer writes its ring.
    One(ConsumerEnd<OneToOne, InSlots>),
}

impl AnyConsumer {
    /// Tests whether a producer is of a ring of the same kind.
    pub(crate) fn is_like(&self, other: &ProducerSide) -> bool
        requires { IsReaderOfKind self.now }
        ensures same { result ≡ true → (consumer_in self.now).many ≡ other.now.many }
        ensures others { result ≡ false → (consumer_in self.now).many ≢ other.now.many }
    {
        match (self, &other.end) {
            (AnyConsumer::Many(_), AnyProducer::Many(_)) => true,
            (AnyConsumer::Many(_), AnyProducer::One(_)) => false,
            (AnyConsumer::One(_), AnyProducer::Many(_)) => false,
            (AnyConsumer::One(_), AnyProducer::One(_)) => true,
        }
    }
}

/// Works on a consumer of either kind, which the work names.
macro_rules! on_consumer {
    ($any:expr, $end:ident => $work:expr) => {
        match $any {
            $crate::ring::AnyConsumer::Many($end) => $work,
            $crate::ring::AnyConsumer::One($end) => $work,
        }
    };
}

pub(crate) use on_consumer;
