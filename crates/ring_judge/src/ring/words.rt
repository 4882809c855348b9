//! The words of the buffer.

ghost use Rattle.std.specs.Prelude.{◌≡◌, ◌+◌, ◌/◌, ◌<◌, ◌≤◌, ◌^◌, ◌↔◌, All, IsTrue, drop, length, slice_index_or};
ghost use Rattle.ring_judge.specs.Ring.{CanBeWord, end_of_claim, header_of_claim};
ghost use Rattle.ring_judge.specs.Judged.{AreInOrder, AreWithin, FindsClear, HasHeader};
ghost use Rattle.ring_judge.specs.declared.ring.RingClaim.{RingClaim};

use crate::ring::claims::end_of_claim;
use crate::ring::{Fate, RingClaim};
use ring_layout::{aborted_header, committed_header, open_header, padding_header};

/// A place among the claims: the claims before the one with this index end at the position `end`.
#[derive(Clone, Copy, Debug, PartialEq, Eq)]
pub struct Cursor {
    pub claim: usize,
    pub end: u64,
}

/// Returns the header of the record of a claim.
fn header_of_claim(claim: &RingClaim) -> u64
    requires { 8 + claim.now.length < 2 ^ 31 }
    ensures { result ≡ header_of_claim claim.now }
{
    let length = claim.length as usize;
    match claim.fate {
        Fate::Open => open_header(claim.type_id, length),
        Fate::Committed(_) => committed_header(claim.type_id, length),
        Fate::Aborted => aborted_header(length),
    }
}

/// Tests whether the header of a claim that comes after `end`, or of the padding before the claim, is at a position
/// from `read` to `to`.
fn has_header(claim: &RingClaim, end: u64, read: u64, to: u64) -> bool
    ensures { IsTrue result ↔ HasHeader read to end claim.now }
{
    end < claim.place && read <= end && end < to || read <= claim.place && claim.place < to
}

/// Returns a cursor at the position `to`, if the words from `read` to `to` can be 0: no header is among them.
pub fn clear_to(
    claims: &[RingClaim],
    capacity: u32,
    from: Cursor,
    read: u64,
    to: u64,
) -> Option<Cursor>
    requires most { capacity ≤ 2 ^ 30 }
    requires within { from.claim ≤ length claims.now }
    requires order { AreInOrder capacity from.end (drop from.claim claims.now) }
    requires behind { from.end ≤ read }
    requires forward { read ≤ to }
    requires ends { AreWithin claims.now }
    requires short { All (λ c. c.length ≤ capacity / 8) claims.now }
    ensures { FindsClear capacity read to claims.now from result }
{
    let mut at = from.claim;
    let mut end = from.end;
    while at < claims.len() {
        let claim = &claims[at];
        if has_header(claim, end, read, to) {
            return None;
        }
        let next = end_of_claim(claim);
        if to < next {
            return Some(Cursor { claim: at, end });
        }
        end = next;
        at += 1;
    }
    Some(Cursor { claim: at, end })
}

/// Tests whether the word at this position can have this value. The cursor is at the position.
pub fn can_be_word(claims: &[RingClaim], capacity: u32, cursor: Cursor, at: u64, value: u64) -> bool
    requires most { capacity ≤ 2 ^ 30 }
    requires order { AreInOrder capacity cursor.end (drop cursor.claim claims.now) }
    requires short { All (λ c. c.length ≤ capacity / 8) claims.now }
    requires before_end { (d : RingClaim) → cursor.claim < length claims.now
        → at < end_of_claim (slice_index_or claims.now cursor.claim d) }
    ensures { IsTrue result ↔ CanBeWord at value cursor.end (drop cursor.claim claims.now) }
{
    let Some(claim) = claims.get(cursor.claim) else {
        return value == 0;
    };
    if at >= claim.place {
        return at != claim.place || value == header_of_claim(claim);
    }
    if at == cursor.end {
        value == padding_header(claim.place - cursor.end)
    } else {
        value == 0
    }
}
