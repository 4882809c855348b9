//! Recovers what a ring left.
ghost use Rattle.std.specs.Prelude.{◌≡◌, ◌≢◌, ℕ, ◌+◌, ◌/◌, ◌%◌, ◌≤◌, length, Err, IfOk, MatchResult};
ghost use Rattle.ring_layout.specs.{Layout.ring_words, Places.IsCapacity, Refusals.IsRefusedBy};
ghost use Rattle.ring_snapshot.specs.declared.ring_finding.RingFinding.TheVariants.{BadSize};
ghost use Rattle.ring_recovery.specs.Headers.{finding_of, headers_between, headers_finding, new_walk, open_of};
ghost use Rattle.ring_recovery.specs.{Image.Remains, Recovered.IsRecoveredOf, Recovered.Reads};

use crate::header::{check_header, is_open};
use crate::mark::{Walk, found_at};
use crate::recovered::Recovered;
use ring_snapshot::{RingFinding, RingSnapshot};

/// Tests the headers between two positions, in order. Returns the number of open claims.
fn check_headers(
    words: &[u64],
    slots: &[u64],
    capacity: u32,
    head: u64,
    tail: u64,
) -> Result<u64, RingFinding>
    requires capacity { IsCapacity capacity }
    requires words { length words.now ≡ ring_words capacity }
    requires slots { length slots.now ≡ capacity / 8 }
    requires order { head ≤ tail }
    ensures refused { IsRefusedBy
        (headers_finding capacity tail head (headers_between capacity words.now slots.now new_walk head tail)) result }
    ensures claims { IfOk result (λ n. n ≡ open_of (headers_between capacity words.now slots.now new_walk head tail)) }
{
    let mut claims = 0;
    let mut end = head;
    let mut walk = Walk { next: 0, end: 0 };
    for k in 0..(tail - head) / 8 {
        let at = head + 8 * k;
        let found = found_at(words, slots, capacity, walk, at);
        walk = found.walk;
        if found.header != 0 {
            end = check_header(capacity, tail, end, at, found.header)?;
            if is_open(found.header) {
                claims += 1;
            }
        }
    }
    Ok(claims)
}

/// Returns what the headers of these words give. The findings are those of `recover`.
fn read_memory<'a>(words: &'a [u64], slots: &'a [u64]) -> Result<Recovered<'a>, RingFinding>
    ensures no_ring { ((C : ℕ) → IsCapacity C → length words.now ≢ ring_words C)
        → result ≡ Err (BadSize (length words.now)) }
    ensures refused { (C : ℕ) → IsCapacity C → length words.now ≡ ring_words C
        → IsRefusedBy (finding_of C words.now slots.now) result }
    ensures reads { (C : ℕ) → IsCapacity C → length words.now ≡ ring_words C
        → IfOk result (λ r. Reads C words.now slots.now r) }
    ensures ring { IfOk result (λ r. length words.now ≡ ring_words r.capacity) }
{
    let ring = RingSnapshot::new(words)?;
    let (capacity, head, tail) = (ring.capacity(), ring.head(), ring.tail());
    if slots.len() != capacity as usize / 8 {
        return Err(RingFinding::BadBodies { words: slots.len() });
    }
    // (the records are not listed: this tests the head and the tail)
    let _records = ring.records()?;
    let open_claims = check_headers(words, slots, capacity, head, tail)?;
    Ok(Recovered {
        words,
        slots,
        capacity,
        at: head,
        walk: Walk { next: 0, end: 0 },
        tail,
        open_claims,
    })
}

/// Recovers the committed messages of a ring whose threads all died, each at any step. `words` are the words of the
/// ring, which have marks. `slots` are its slots, which have the headers and the bodies.
///
/// From the memory of a ring the call returns the committed messages from the head on. Each of them comes whole, once,
/// and in the order of the claims. What the dead consumer was shown after it last stored the head comes again. Claims
/// that were open count as aborted.
///
/// For any other memory the call returns a finding about it, or the messages of the headers that it has. The findings
/// are, in this order: `BadSize` if no ring has this many words, `BadBodies` if there are not as many slots as words of
/// the buffer, `UnalignedPosition`, `TailBeforeHead` and `TailTooFar` for positions that make no sense, and `BadLength`
/// or `BadType` for the first header that no record has there, or that lies inside another record. A mark that does not
/// show the header beside it gives `BadLength` with the length 1. So does a header in a run of committed records that is
/// not that of a committed record, or whose record would end above the end of the run.
///
/// The call changes nothing, and allocates no memory. Any thread may call it.
pub fn recover<'a>(words: &'a [u64], slots: &'a [u64]) -> Result<Recovered<'a>, RingFinding>
    ensures recovered { (C start : ℕ) (m : Remains C start words.now slots.now)
        → MatchResult result (λ r. IsRecoveredOf m.rule.kept.hist m.rule.kept.consumer r) (λ _. ⊥) }
    ensures no_ring { ((C : ℕ) → IsCapacity C → length words.now ≢ ring_words C)
        → result ≡ Err (BadSize (length words.now)) }
    ensures refused { (C : ℕ) → IsCapacity C → length words.now ≡ ring_words C
        → IsRefusedBy (finding_of C words.now slots.now) result }
    ensures reads { (C : ℕ) → IsCapacity C → length words.now ≡ ring_words C
        → IfOk result (λ r. Reads C words.now slots.now r) }
    ensures ring { IfOk result (λ r. length words.now ≡ ring_words r.capacity) }
{
    read_memory(words, slots)
}
