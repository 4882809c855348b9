//! The functions that the searches for rings, broadcast buffers and counters share.
ghost use Rattle.std.specs.Prelude.{◌≡◌, ℕ, ◌+◌, ◌-◌, ◌<◌, ◌≤◌, false, true, length, IfNone, IfSome};
ghost use Rattle.ring_snapshot.specs.Search.{are_zero};

/// Tests whether `count` words from an index on are 0.
#[tactic(auto, using(crate::proofs::SearchLemmas::zero_goes, crate::proofs::SearchLemmas::zero_fails))]
pub(crate) fn are_zero(words: &[u64], from: usize, count: usize) -> bool
    requires { from + count ≤ length words.now }
    ensures { result ≡ are_zero words.now count from }
{
    for k in 0..count {
        if words[from + k] != 0 {
            return false;
        }
    }
    true
}

/// Returns the first index from `from` on at which a test holds. Only the indexes at which a run of `size` words begins
/// are tested.
pub(crate) fn first_index<F: Fn(usize) -> bool>(
    words: &[u64],
    size: usize,
    from: usize,
    is_at: F,
) -> Option<usize>
    requires { (k : ℕ) → k + size ≤ length words.now → F.pre is_at k }
    ensures found { IfSome result (λ at. (from ≤ at) × (at + size ≤ length words.now) × F.post is_at at true) }
    ensures first { IfSome result (λ at. (k : ℕ) → from ≤ k → k < at → F.post is_at k false) }
    ensures none { IfNone result ((k : ℕ) → from ≤ k → k + size ≤ length words.now → F.post is_at k false) }
{
    if words.len() < size {
        return None;
    }
    for at in from..words.len() - size + 1 {
        if is_at(at) {
            return Some(at);
        }
    }
    None
}
