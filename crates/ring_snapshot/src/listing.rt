//! An iterator over the records of a ring or a broadcast buffer.
ghost use Rattle.std.specs.Prelude.{◌≡◌, ◌+◌, ◌%◌, ◌^◌, ◌≤◌};

use crate::buffer::Buffer;
use ring_layout::align8;

/// An iterator over the records of a buffer from a position on, in order. The iterator ends at the tail, and after a
/// finding.
#[derive(Debug, Drop)]
pub struct Listing<B> {
    buffer: B,
    at: u64,
    tail: u64,
    most: u64,
    ghost aligned: { (at % 8 ≡ 0) × (tail % 8 ≡ 0) },
    ghost near: { tail ≤ at + 2 ^ 24 },
}

impl<B: Buffer> Listing<B> {
    ghost use Rattle.std.specs.Prelude.{◌≡◌, ◌+◌, ◌-◌, ◌/◌, ◌%◌, ◌^◌, ◌≤◌};
    ghost use Rattle.ring_snapshot.specs.{Listing.left_of, Listing.listed_by, Search.all_ok};

    /// Returns the records from a position on.
    pub(crate) fn new(buffer: B, at: u64, tail: u64) -> Self
        requires aligned { (at % 8 ≡ 0) × (tail % 8 ≡ 0) }
        requires order { at ≤ tail }
        requires near { tail ≤ at + 2 ^ 24 }
        ensures { left_of B.size B.entry result ≡ listed_by B.size (B.entry buffer tail) tail ((tail - at) / 8) at }
    {
        let most = (tail - at) / 8;
        Listing {
            buffer,
            at,
            tail,
            most,
        }
    }

    /// Tests whether all entries that are left are records.
    #[tactic(auto, using(crate::proofs::SearchLemmas::yielded_ok, crate::proofs::SearchLemmas::yielded_err, crate::proofs::SearchLemmas::yielded_none))]
    pub(crate) fn are_records(self) -> bool
        ensures { result ≡ all_ok (left_of B.size B.entry self) }
    {
        for entry in self {
            match entry {
                Ok(_record) => {}
                Err(_finding) => return false,
            }
        }
        true
    }
}

impl<B: Buffer> Iterator for Listing<B> {
    ghost use Rattle.std.specs.Iterator.{YieldsFirst, item_count};
    ghost use Rattle.ring_snapshot.specs.Listing.{left_of};

    type Item = Result<B::Record, B::Finding>;

    ghost next_gives = { YieldsFirst (left_of B.size B.entry) };

    ghost remaining = { item_count (left_of B.size B.entry) };

    fn next(&mut self) -> Option<Result<B::Record, B::Finding>> {
        if self.most == 0 || self.at >= self.tail {
            return None;
        }
        let entry = self.buffer.entry_at(self.tail, self.at);
        match &entry {
            Ok(record) => {
                self.at += align8(u64::from(B::length_of(record)));
                self.most -= 1;
            }
            Err(_finding) => self.most = 0,
        }
        Some(entry)
    }
}
