//! What an adder in a handle does.
ghost use Rattle.std.specs.Prelude.{◌≡◌, IfErr, IfOk, OnOk};
ghost use Rattle.ring_handles.specs.Adding.{IsOfAnother, IsOfThisCounter, SaysShares, SaysSum, SplitsAdder};
ghost use Rattle.ring_handles.specs.Adding.{Summed, TakesAdder, WhyNotSplit};

use crate::adders::AdderSide;
use crate::code::{DONE, NO_SHARES, OTHER_RING, OUT_OF_MEMORY};
use std::sync::Arc;

impl AdderSide {
    /// Adds to the value, which wraps, and reports the value before.
    pub fn add(&mut self, amount: i64, before: &mut i64) -> i32
        ensures { Summed amount before.new self.old self.new result }
    {
        *before = self.counter.add(&mut self.adder, amount);
        DONE
    }

    /// Loads the value: the sum of all that was added.
    pub fn value(&mut self, value: &mut i64) -> i32
        ensures { SaysSum value.new self.old self.new result }
    {
        *value = self.counter.value(&mut self.adder);
        DONE
    }

    /// Reports how many shares it has.
    pub fn shares(&mut self, shares: &mut u32) -> i32
        ensures { SaysShares shares.new self.old self.new result }
    {
        *shares = self.adder.shares();
        DONE
    }

    /// Makes another adder of the same shared counter, with one share.
    pub fn split(&mut self) -> Result<AdderSide, i32>
        ensures split { IfOk result (SplitsAdder self.old self.new) }
        ensures refused { IfErr result (λ code. (self.new ≡ self.old) × WhyNotSplit self.old code) }
    {
        let Ok(counter) = Arc::try_clone(&self.counter) else {
            return Err(OUT_OF_MEMORY);
        };
        match self.counter.split(&mut self.adder) {
            Ok(adder) => Ok(AdderSide {
                counter,
                identity: self.identity,
                adder,
            }),
            Err(_) => Err(NO_SHARES),
        }
    }

    /// Takes another adder of the same shared counter in, with its shares and what was added with it. An adder of
    /// another shared counter comes back.
    pub fn join(&mut self, other: AdderSide) -> Result<(), (i32, AdderSide)>
        requires { IsOfThisCounter self.old other }
        ensures joined { OnOk result (TakesAdder self.old other self.new) }
        ensures refused { IfErr result (λ r. (self.new ≡ self.old) × (r.1 ≡ other)
            × IsOfAnother self.old other r.0) }
    {
        if !self.identity.is(other.identity) {
            return Err((OTHER_RING, other));
        }
        let AdderSide {
            counter: _,
            identity: _,
            adder,
        } = other;
        self.counter.join(&mut self.adder, adder);
        Ok(())
    }
}
