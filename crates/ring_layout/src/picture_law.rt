//! A law about what one word of the picture of a ring depends on.
ghost use Rattle.std.specs.Prelude.{ℕ, List};
ghost use Rattle.ring_layout.specs.{History.Claim, Picture.ShowsClaim, Picture.ShowsNothingElse};

/// States that a word of the picture depends only on the one claim, padding or unclaimed room at its position. The
/// function computes nothing.
pub fn word_depends_on_one_claim()
    ensures claim { (capacity e : ℕ) (front : List Claim) (c : Claim) (back : List Claim)
        → ShowsClaim capacity e front c back }
    ensures room { (capacity e : ℕ) (h : List Claim) → ShowsNothingElse capacity e h }
{}
