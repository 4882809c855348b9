//! The calls of a shared counter and its adders, with the steps of these calls.
ghost use Rattle.std.specs.Prelude.{◌≡◌, ◌+◌, ◌<◌, ◌↔◌, [], ◌++◌, IfOk, IsOk, OnErr};
ghost use Rattle.ring_layout.specs.{Lists.Begins, Refusals.all_shares};
ghost use Rattle.ring_adders.specs.Adders.{added_by, seen_by, shares_of, AddsAmount, IsAdderOf, IsNewAdderOf, SeesSum};
ghost use Rattle.ring_adders.specs.Sums.{sum_of};

use crate::plays::{AddAmount, CutAdder, JoinAdder, LoadSum};
use crate::seats::{Adder, SharedCounter};
use atomic_table::Table;
use ring_counters::OutOfMemory;
use ring_layout::{ALL_SHARES, NoShares, has_spare_share};
use std::alloc::Global;

impl Adder {
    /// Returns the number of shares of this adder. The first adder has 65,536. If an adder has all shares, there is no
    /// other adder.
    pub fn shares(&self) -> u32
        ensures { result ≡ shares_of self.now }
    {
        self.shares
    }
}

impl SharedCounter {
    /// Makes a counter of value 0, and an adder that has all shares.
    ///
    /// Returns `OutOfMemory` if memory runs out.
    pub fn new(alloc: Global) -> Result<(SharedCounter, Adder), OutOfMemory>
        ensures adder { IfOk result (λ made. IsNewAdderOf made.0 [] made.1) }
        ensures shares { IfOk result (λ made. shares_of made.1 ≡ all_shares) }
    {
        let Ok((table, seat)) = Table::of_words(alloc, &[0], &()) else {
            return Err(OutOfMemory);
        };
        let adder = Adder {
            seat,
            shares: ALL_SHARES,
        };
        Ok((SharedCounter { table }, adder))
    }

    /// Adds to the counter, and returns the value before the addition. The call takes one step and no memory.
    ///
    /// The sum is taken modulo 2^64. Above 2^63 - 1 it wraps to -2^63, and below -2^63 it wraps to 2^63 - 1.
    pub fn add(&self, adder: &mut Adder, delta: i64) -> i64
        requires { IsAdderOf self.now adder.old }
        ensures adder { IsAdderOf self.now adder.new }
        ensures adds { AddsAmount delta result adder.old adder.new }
        ensures shares { shares_of adder.new ≡ shares_of adder.old }
    {
        self.table
            .shared
            .fetch_add::<AddAmount>(&mut adder.seat, 0, delta.cast_unsigned())
            .cast_signed()
    }

    /// Returns the value, which is the sum of all amounts that were added until then. The call takes one step and no
    /// memory.
    pub fn value(&self, adder: &mut Adder) -> i64
        requires { IsAdderOf self.now adder.old }
        ensures adder { IsAdderOf self.now adder.new }
        ensures sees { SeesSum result adder.old adder.new }

        // If the adder has all shares, the value is exactly the sum of what was added with it and with the adders that
        // it took back.
        ensures total { shares_of adder.old ≡ all_shares → result ≡ sum_of (added_by adder.old) }
        ensures shares { shares_of adder.new ≡ shares_of adder.old }
    {
        self.table
            .shared
            .load::<LoadSum>(&mut adder.seat, 0)
            .cast_signed()
    }

    /// Makes another adder, for another thread. The other adder takes one share of this one.
    ///
    /// Returns `NoShares` if this adder has only one share. Nothing has then changed.
    pub fn split(&self, adder: &mut Adder) -> Result<Adder, NoShares>
        requires { IsAdderOf self.now adder.old }
        ensures adder { IsAdderOf self.now adder.new }
        ensures enough { IsOk result ↔ (1 < shares_of adder.old) }
        ensures new { IfOk result (IsNewAdderOf self.now (seen_by adder.old)) }
        ensures one { IfOk result (λ new. shares_of new ≡ 1) }
        ensures shares { IfOk result (λ _. shares_of adder.new + 1 ≡ shares_of adder.old) }
        ensures added { added_by adder.new ≡ added_by adder.old }
        ensures seen { seen_by adder.new ≡ seen_by adder.old }
        ensures err { OnErr result (adder.new ≡ adder.old) }
    {
        if !has_spare_share(adder.shares) {
            return Err(NoShares);
        }
        let seat = self.table.shared.split_seat::<CutAdder>(&mut adder.seat);
        adder.shares -= 1;
        Ok(Adder { seat, shares: 1 })
    }

    /// Takes another adder of this counter back, with its shares and with what was added with it.
    pub fn join(&self, adder: &mut Adder, other: Adder)
        requires adder { IsAdderOf self.now adder.old }
        requires other { IsAdderOf self.now other }
        ensures adder { IsAdderOf self.now adder.new }
        ensures shares { shares_of adder.new ≡ shares_of adder.old + shares_of other }
        ensures added { added_by adder.new ≡ added_by adder.old ++ added_by other }
        ensures seen { Begins (seen_by adder.old) (seen_by adder.new) }
    {
        let Adder { seat, shares: more } = other;
        let shares = adder.shares + more;
        self.table
            .shared
            .join_seat::<JoinAdder>(&mut adder.seat, seat);
        // Only the next step says that the shares are at most all shares.
        self.table.shared.load::<LoadSum>(&mut adder.seat, 0);
        adder.shares = shares;
    }
}
