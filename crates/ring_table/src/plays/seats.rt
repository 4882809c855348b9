//! How seats are cut in two and put together.
ghost use Rattle.ring_table.specs.Views.{consumer_alone, with_consumer_of, without_consumer};
ghost use Rattle.ring_table.specs.Views.{producer_alone, spent, with_producer_of, without_share};

use crate::view::View;
use atomic_table::{Join, Split};

/// The consumer's part, which one seat has.
pub struct TheConsumer;

impl Split<View> for TheConsumer {
    ghost left = { without_consumer };

    ghost right = { consumer_alone };
}

impl Join<View> for TheConsumer {
    ghost both = { with_consumer_of };

    ghost spent = { spent };
}

/// A producer with one share at first.
pub struct OneProducer;

impl Split<View> for OneProducer {
    ghost left = { without_share };

    ghost right = { producer_alone };
}

impl Join<View> for OneProducer {
    ghost both = { with_producer_of };

    ghost spent = { spent };
}
