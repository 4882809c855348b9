//! Calls that return the counts of a producer.
pub(crate) mod batch;
pub(crate) mod many_to_one;
pub(crate) mod one_to_one;
pub(crate) mod record;
pub(crate) mod room;
pub(crate) mod service;
pub(crate) mod settle;
pub(crate) mod try_once;
pub(crate) mod wait;

ghost use Rattle.std.specs.Prelude.{◌≡◌};
ghost use Rattle.ring_rings.specs.Seats.{open_claims_of, shares_of};

use crate::ring::Producer;

impl Producer {
    /// Returns the number of shares of the ring that this producer holds.
    pub fn shares(&self) -> u32
        ensures { result ≡ shares_of self.now }
    {
        self.shares
    }

    /// Returns the number of open claims of this producer.
    pub fn open_claims(&self) -> u64
        ensures { result ≡ open_claims_of self.now }
    {
        self.open_claims
    }
}
