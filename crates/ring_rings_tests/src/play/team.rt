//! Producers that are cut in two and put together.
use crate::play::call::Said;
use crate::play::shared::{SharedBench, Shows, apart};
use ring_rings::{Bodies, KeptClaim, Kind, ManyToOne, OneToOne, Producer};
use std::mem;

/// A second producer, with its open claims.
#[derive(Drop)]
pub struct Other {
    pub producer: Producer,
    pub last: Option<KeptClaim>,
    pub before: Option<KeptClaim>,
}

/// A kind of ring whose producers may be cut in two and put together.
pub trait Team: Kind {
    /// Has the other producer work, which is made if there is none.
    fn swap<B: Bodies, H: Shows>(bench: &mut SharedBench<Self, B, H>) -> Said;

    /// Joins the other producer, if there is one. Of the open claims of each, one stays open.
    fn join<B: Bodies, H: Shows>(bench: &mut SharedBench<Self, B, H>) -> Said;
}

impl Team for OneToOne {
    fn swap<B: Bodies, H: Shows>(_bench: &mut SharedBench<Self, B, H>) -> Said {
        Said::Missing
    }

    fn join<B: Bodies, H: Shows>(_bench: &mut SharedBench<Self, B, H>) -> Said {
        Said::Missing
    }
}

impl Team for ManyToOne {
    fn swap<B: Bodies, H: Shows>(bench: &mut SharedBench<Self, B, H>) -> Said {
        let other = match bench.other.take() {
            Some(other) => other,
            None => match bench.ring.split(&mut bench.producer) {
                Ok(producer) => Other {
                    producer,
                    last: None,
                    before: None,
                },
                Err(_) => return Said::Missing,
            },
        };
        let Other {
            producer,
            last,
            before,
        } = other;
        bench.other = Some(Other {
            producer: mem::replace(&mut bench.producer, producer),
            last: mem::replace(&mut bench.last, last),
            before: mem::replace(&mut bench.before, before),
        });
        Said::Done
    }

    fn join<B: Bodies, H: Shows>(bench: &mut SharedBench<Self, B, H>) -> Said {
        if bench.last.is_none() {
            mem::swap(&mut bench.last, &mut bench.before);
        }
        let _settled = bench.settle(true);
        let Some(other) = bench.other.take() else {
            return Said::Missing;
        };
        let Other {
            mut producer,
            last,
            before,
        } = other;
        let last = match before {
            Some(claim) => {
                let last = apart(last, claim.place());
                bench.ring.commit(&mut producer, claim.into_claim());
                last
            }
            None => last,
        };
        bench.ring.join(&mut bench.producer, producer);
        bench.before = last;
        Said::Done
    }
}
