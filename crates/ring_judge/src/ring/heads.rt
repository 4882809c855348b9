//! The least head at which a ring had room for its claims.

ghost use Rattle.std.specs.Prelude.{◌≡◌, ◌+◌, ◌/◌, ◌<◌, ◌≤◌, ◌↔◌, ℕ, All, IsTrue, length, take, slice_index_or};
ghost use Rattle.std.specs.Int.{is_power_of_two};
ghost use Rattle.ring_layout.specs.{History.span, Places.end_after, Places.max_position};
ghost use Rattle.ring_judge.specs.{Ring.end_of_claim, declared.ring.RingClaim.RingClaim};
ghost use Rattle.ring_judge.specs.Judged.{AreInOrder, AreWithin, FindsHead, IsBehind};

use crate::ring::RingClaim;
use crate::ring::claims::end_of_claim;
use ring_layout::place_record;

/// Tests whether the consumer can pass the claim, and at its end the ring has no room for all claims yet.
fn is_behind(claim: &RingClaim, capacity: u32, tail: u64) -> bool
    requires { end_of_claim claim.now ≤ max_position }
    ensures { IsTrue result ↔ IsBehind capacity tail claim.now }
{
    !claim.fate.is_open() && end_of_claim(claim) + u64::from(capacity) < tail
}

/// Returns the index of the first claim from `low` on for which `is_behind` is false.
pub fn skip_behind(claims: &[RingClaim], low: usize, capacity: u32, tail: u64) -> usize
    requires low { low ≤ length claims.now }
    requires ends { AreWithin claims.now }
    requires behind { All (IsBehind capacity tail) (take low claims.now) }
    ensures within { result ≤ length claims.now }
    ensures behind { All (IsBehind capacity tail) (take result claims.now) }
    ensures stops { (d : RingClaim) → result < length claims.now
        → IsBehind capacity tail (slice_index_or claims.now result d) → ⊥ }
{
    let mut at = low;
    while at < claims.len() && is_behind(&claims[at], capacity, tail) {
        at += 1;
    }
    at
}

/// Returns the least position at which the head can be while the ring has room for these claims, whose end is `tail`.
/// For the claims before the index `low` the function `is_behind` returns true, and for the next one it returns false.
pub fn least_head(
    claims: &[RingClaim],
    low: usize,
    start: u64,
    capacity: u32,
    tail: u64,
) -> Option<u64>
    requires start { start ≤ max_position }
    requires order { AreInOrder capacity start claims.now }
    requires ends { AreWithin claims.now }
    requires behind { All (IsBehind capacity tail) (take low claims.now) }
    requires stops { (d : RingClaim) → low < length claims.now
        → IsBehind capacity tail (slice_index_or claims.now low d) → ⊥ }
    ensures { FindsHead capacity start tail claims.now result }
{
    if tail <= start + u64::from(capacity) {
        return Some(start);
    }
    let Some(claim) = claims.get(low) else {
        return None;
    };
    if tail <= claim.place + u64::from(capacity) {
        return Some(claim.place);
    }
    if claim.fate.is_open() {
        None
    } else {
        Some(end_of_claim(claim))
    }
}

/// Tests whether a ring with this head and tail has no room for a message of this length.
pub fn is_full_at(capacity: u32, tail: u64, head: u64, len: usize) -> bool
    requires power { IsTrue (is_power_of_two capacity) }
    requires short { len ≤ capacity / 8 }
    requires tail { tail ≤ max_position }
    requires head { head ≤ max_position }
    ensures { IsTrue result ↔ (head + capacity < end_after capacity tail (span len)) }
{
    head + u64::from(capacity) < place_record(capacity, tail, len).end
}
