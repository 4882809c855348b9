//! Code that is tested on rings of both kinds and over both tables, and rings for it.
ghost use Rattle.std.specs.Prelude.{◌≡◌};
ghost use Rattle.ring_rings.specs.Seats.{all_shares, shares_of, IsConsumerOf, IsProducerOf};

use crate::script::Script;
use ring_rings::{
    Bodies, Consumer, InSlots, InWords, Kind, ManyToOne, OneToOne, Producer, ReadEnd, Ring,
};
use std::alloc::Global;
use std::process::Abort;

/// What is tested on rings of both kinds and over both tables.
pub trait OnEach {
    fn holds<K: Kind, B: Bodies>(rt: &impl Abort, alloc: Global);
}

/// Tests it on a ring of each kind, with bodies in words and with bodies in slots.
pub fn on_each<T: OnEach>(rt: &impl Abort, alloc: Global) {
    T::holds::<OneToOne, InWords>(rt, alloc);
    T::holds::<OneToOne, InSlots>(rt, alloc);
    T::holds::<ManyToOne, InWords>(rt, alloc);
    T::holds::<ManyToOne, InSlots>(rt, alloc);
}

/// What is tested on rings of many producers over both tables.
pub trait OnShared {
    fn holds<B: Bodies>(rt: &impl Abort, alloc: Global);
}

/// Tests it on a ring with bodies in words, and on one with bodies in slots.
pub fn on_both<T: OnShared>(rt: &impl Abort, alloc: Global) {
    T::holds::<InWords>(rt, alloc);
    T::holds::<InSlots>(rt, alloc);
}

/// A ring of 128 bytes with its seats, which begins at this position.
pub fn opened<K, B: Bodies>(
    rt: &impl Abort,
    alloc: Global,
    start: u64,
) -> (Ring<K, B>, Producer, Consumer)
    ensures producer { IsProducerOf result.0 result.1 }
    ensures sole { shares_of result.1 ≡ all_shares }
    ensures consumer { IsConsumerOf result.0 result.2 }
{
    Ring::new_at(alloc, 128, start).expect(rt, "a ring")
}

/// Reads at most nine messages.
pub fn read_nine<K, B: Bodies>(
    ring: &Ring<K, B>,
    consumer: &mut Consumer,
    script: &mut Script<'_>,
) -> ReadEnd
    requires { IsConsumerOf ring.now consumer.old }
    ensures { IsConsumerOf ring.now consumer.new }
{
    ring.read(consumer, 9, script)
}
