//! The claims that the consumer passes.

ghost use Rattle.std.specs.Prelude.{◌≡◌, ◌+◌, ◌<◌, ◌≤◌, ◌↔◌, IsTrue, MatchOption, [], ◌∷◌, drop, length};
ghost use Rattle.ring_layout.specs.{Places.max_position, Lists.or_else};
ghost use Rattle.ring_judge.specs.Ring.{IsCopyOf, IsHead, claims_from, end_of_claim, first_open, unaborted};
ghost use Rattle.ring_judge.specs.Judged.{AreWithin, MovesHead};

use crate::ring::{Fate, RingClaim, RingCopy};
use ring_layout::span;

/// Returns the end of the record of a claim.
pub fn end_of_claim(claim: &RingClaim) -> u64
    requires { end_of_claim claim.now ≤ max_position }
    ensures { result ≡ end_of_claim claim.now }
{
    claim.place + span(claim.length as usize)
}

/// Returns the index of the first claim from this one on that was not aborted.
pub fn skip_aborted(claims: &[RingClaim], from: usize) -> usize
    requires { from ≤ length claims.now }
    ensures within { result ≤ length claims.now }
    ensures rest { unaborted (drop from claims.now) ≡ drop result claims.now }
{
    let mut at = from;
    while at < claims.len() && claims[at].fate.is_aborted() {
        at += 1;
    }
    at
}

/// Returns the index of the first claim at or after the position `at`, if the head can be there: it was at `head`,
/// before the claim with the index `passed`.
pub fn move_head(claims: &[RingClaim], passed: usize, head: u64, at: u64) -> Option<usize>
    requires passed { passed ≤ length claims.now }
    requires ends { AreWithin claims.now }
    ensures { MovesHead claims.now passed head at result }
{
    let mut next = passed;
    let mut end = head;
    while next < claims.len() {
        let claim = &claims[next];
        if at <= claim.place {
            return if at == end || at == claim.place {
                Some(next)
            } else {
                None
            };
        }
        if !claim.fate.is_aborted() {
            return None;
        }
        end = end_of_claim(claim);
        next += 1;
    }
    if at == end { Some(next) } else { None }
}

/// Tests whether the message is that of the claim.
pub fn is_copy_of(claim: &RingClaim, copy: &RingCopy) -> bool
    ensures { IsTrue result ↔ IsCopyOf claim.now copy.now }
{
    is_place_or_none(copy.place, claim.place)
        && copy.type_id == claim.type_id
        && copy.length == claim.length
        && claim.fate == Fate::Committed(copy.body)
}

/// Returns the place of the first open claim, if this claim comes after others: `blocked_at` is the place of the first
/// open one of those.
pub fn first_open(blocked_at: Option<u64>, claim: &RingClaim) -> Option<u64>
    ensures { result ≡ or_else blocked_at (first_open (claim.now ∷ [])) }
{
    match blocked_at {
        Some(place) => Some(place),
        None => if claim.fate.is_open() {
            Some(claim.place)
        } else {
            None
        },
    }
}

/// Tests whether a place, if there is one, is this one.
fn is_place_or_none(noted: Option<u64>, place: u64) -> bool
    ensures { IsTrue result ↔ MatchOption noted (Unit {0}) (λ it. it ≡ place) }
{
    match noted {
        Some(it) => it == place,
        None => true,
    }
}
