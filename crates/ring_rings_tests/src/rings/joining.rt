//! Claims that are open while producers are cut in two and put together.
use crate::compare::same;
use crate::rings::claims::claimed;
use crate::rings::forms::{OnShared, on_both, opened, read_nine};
use crate::script::{Script, end};
use ring_rings::{Bodies, ManyToOne, Stop};
use std::alloc::Global;
use std::process::Abort;

/// Two producers are joined, each with an open claim, and then both claims are settled.
struct JoinsWithClaims;

impl OnShared for JoinsWithClaims {
    fn holds<B: Bodies>(rt: &impl Abort, alloc: Global) {
        let (ring, mut one, mut consumer) = opened::<ManyToOne, B>(rt, alloc, 0);
        let mut two = ring.split(&mut one).expect(rt, "a producer");
        let first = claimed(rt, &ring, &mut one, 1, 8);
        let second = claimed(rt, &ring, &mut two, 2, 8);
        let alone = one.open_claims();
        ring.join(&mut one, two);
        let joined = one.open_claims();
        ring.commit(&mut one, second);
        ring.abort(&mut one, first);
        let mut script = Script::new(&[], &[(2, &[0; 8])]);
        let read = read_nine(&ring, &mut consumer, &mut script);
        same(rt, [alone, joined, one.open_claims()], [1, 2, 0]);
        same(rt, read, end(1, 32, Stop::Unpublished));
        assert!(rt; script.is_done());
    }
}

#[test]
fn open_claims_of_both_are_settled_after_a_join(rt: HostRuntime) {
    on_both::<JoinsWithClaims>(&rt, rt.alloc());
}
