//! Laws of the definitions. The functions compute nothing: what counts is what they ensure.
ghost use Rattle.std.specs.Prelude.{◌≡◌, ℕ, ◌+◌, ◌≤◌, List, [], ◌∷◌, ◌++◌};
ghost use mathlib.Core.Option.{some};
ghost use lib.ListN.{get_elem?};
ghost use Rattle.ring_layout.specs.{Places.end_of, Picture.word_at};
ghost use Rattle.ring_table.specs.Staged.{ArePlaced, AreRising, AreStored, StagedClaim};
ghost use Rattle.ring_table.specs.Staged.{in_words, unplaced, staged_end, staged_word_at, stage_state};
ghost use Rattle.ring_table.specs.{Changes.changed, OpenClaims.AreBelow, OpenClaims.one_if_open, OpenClaims.open_count};
ghost use Rattle.ring_table.specs.{Owners.interleaved, Passing.AreSettled, ProducerSteps.EndBelow};

/// If the header of each claim is stored, the words of the claims with their places are those of the claims alone, and
/// both end at one position.
pub fn stored_claims_show_one_picture()
    ensures word { (capacity e : ℕ) (cs : List StagedClaim) (p : ℕ) → ArePlaced capacity e cs → AreStored cs
        → staged_word_at in_words cs p ≡ word_at capacity e (unplaced cs) p }
    ensures end { (capacity e : ℕ) (cs : List StagedClaim) → ArePlaced capacity e cs
        → staged_end e cs ≡ end_of capacity e (unplaced cs) }
{}

/// A claim after all others that one of two producers gets is at the end of their claims put together, and changes
/// no other place.
pub fn last_claim_stands_last()
    ensures left { (c : StagedClaim) (xs ys : List StagedClaim) → AreBelow c.place ys
        → interleaved (xs ++ c ∷ []) ys ≡ interleaved xs ys ++ c ∷ [] }
    ensures right { (c : StagedClaim) (xs ys : List StagedClaim) → AreBelow c.place xs → AreBelow c.place ys
        → interleaved xs (ys ++ c ∷ []) ≡ interleaved xs ys ++ c ∷ [] }
{}

/// A change at the place of the newest claim, after the end of all others, changes that claim alone.
pub fn newest_claim_changes_alone()
    ensures { (from : ℕ) (cs : List StagedClaim) (c : StagedClaim) (f : StagedClaim → StagedClaim)
        → EndBelow from cs → from ≤ c.place → changed c.place f (cs ++ c ∷ []) ≡ cs ++ f c ∷ [] }
{}

/// How the number of open claims changes: a join adds those of both, a change of one claim counts that one, and if
/// there are none all claims are settled and have their headers.
pub fn open_claims_are_counted()
    ensures join { (xs ys : List StagedClaim) → open_count (interleaved xs ys) ≡ open_count xs + open_count ys }
    ensures change { (f : StagedClaim → StagedClaim) (cs : List StagedClaim) (k : ℕ) (c : StagedClaim)
        → AreRising cs → get_elem? cs k ≡ some c
        → open_count (changed c.place f cs) + one_if_open (stage_state c.stage)
        ≡ open_count cs + one_if_open (stage_state (f c).stage) }
    ensures none { (cs : List StagedClaim) → open_count cs ≡ 0 → AreSettled cs × AreStored cs }
{}
