//! What an owner does to an open claim.
ghost use Rattle.std.specs.Prelude.{◌≡◌, ◌≢◌, ◌+◌, ◌^◌, ◌≤◌, length};
ghost use Rattle.ring_layout.specs.declared.message.{Claim.Claim, ClaimState.TheVariants.Open};
ghost use Rattle.ring_layout.specs.Headers.{header_of};
ghost use Rattle.ring_words.specs.Ring.{ring, IsRing};
ghost use Rattle.ring_words.specs.{Open.ClaimAt, Open.IsOpen, Change.PutsInto, Change.Settles, Change.settled_as};

use crate::claim::SoloClaim;
use crate::words::overwrite_body;
use ring_layout::{ClaimState, aborted_header, committed_header};

/// The header of a claim in this state.
fn settled_header(claim: &SoloClaim, state: ClaimState) -> u64
    requires short { claim.now.len ≤ 2 ^ 24 }
    requires settled { state ≢ Open }
    ensures { (c : Claim) → c.message.type_id ≡ claim.now.type_id → length c.message.body ≡ claim.now.len
        → result ≡ header_of (settled_as state c) }
{
    match state {
        ClaimState::Aborted => aborted_header(claim.len()),
        ClaimState::Committed | ClaimState::Open => committed_header(claim.type_id(), claim.len()),
    }
}

/// Stores the settled header of an open claim.
pub(crate) fn settle_at(words: &mut [u64], capacity: u32, claim: &SoloClaim, state: ClaimState)
    requires ring { IsRing (ring capacity words.old) }
    requires claim { IsOpen (ring capacity words.old) claim.now }
    requires settled { state ≢ Open }
    ensures settled { Settles (ring capacity words.old) claim.now.place state (ring capacity words.new) }
    ensures ring { IsRing (ring capacity words.new) }
    ensures others { (t : ClaimAt) → IsOpen (ring capacity words.old) t → t.place ≢ claim.now.place
        → IsOpen (ring capacity words.new) t }
{
    let header = settled_header(claim, state);
    words[(claim.index() / 8) as usize - 1] = header;
}

/// Puts bytes into the body of an open claim.
pub(crate) fn put_bytes(
    words: &mut [u64],
    capacity: u32,
    claim: &SoloClaim,
    offset: usize,
    bytes: &[u8],
)
    requires ring { IsRing (ring capacity words.old) }
    requires claim { IsOpen (ring capacity words.old) claim.now }
    requires range { offset + length bytes.now ≤ claim.now.len }
    ensures put { PutsInto (ring capacity words.old) claim.now.place offset bytes.now (ring capacity words.new) }
    ensures ring { IsRing (ring capacity words.new) }
    ensures claims { (t : ClaimAt) → IsOpen (ring capacity words.old) t → IsOpen (ring capacity words.new) t }
{
    overwrite_body(words, (claim.index() / 8) as usize, offset, bytes);
}
