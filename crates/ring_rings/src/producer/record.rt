//! Stores of the headers of a claim.
ghost use Rattle.ring_layout.specs.History.{IsMessage};
ghost use Rattle.ring_rings.specs.Making.{HasNewest, IsNewest};
ghost use Rattle.ring_table.specs.{Changes.blank, Changes.staged, Changes.with_header, Views.with_claims};
ghost use Rattle.ring_table.specs.Seats.{IsSameSeat, IsSeatOf};
ghost use Rattle.ring_table.specs.declared.claim.{Stage.TheVariants.Padded, StagedClaim.StagedClaim};
ghost use Rattle.std.specs.Prelude.{◌≡◌, ℕ, ◌+◌, ◌≤◌, List, [], ◌∷◌, ◌++◌};

use crate::bodies::Bodies;
use ring_layout::Admission;
use ring_table::{Headers, RingSeat, SharedRing, Wanted};

/// Stores the header of the padding before the newest claim, if there is padding.
#[inline(always)]
pub(crate) fn store_padding<M: Headers>(
    words: &SharedRing<M>,
    seat: &mut RingSeat,
    capacity: u32,
    admission: Admission,
)
    requires seat { IsSeatOf words.now.table_id words.now.key capacity seat.old }
    requires near { (admission.tail ≤ admission.place) × (admission.place ≤ admission.tail + capacity) }
    requires newest { (len : ℕ) × HasNewest admission.tail admission.place len seat.old.me.0 }
    ensures seat { IsSameSeat seat.old seat.new }
    ensures padded { (len : ℕ) (cs : List StagedClaim) (c : StagedClaim)
        → IsNewest admission.tail admission.place len cs c seat.old.me.0
        → seat.new.me.0 ≡ with_claims (cs ++ staged Padded c ∷ []) seat.old.me.0 }
{
    let Admission { tail, place, .. } = admission;
    if place > tail {
        M::store_padding_header(words, seat, capacity, tail, place);
    }
}

/// Stores the headers of the newest claim, which is then open.
pub(crate) fn store_headers<B: Bodies>(
    words: &SharedRing<B>,
    seat: &mut RingSeat,
    capacity: u32,
    admission: Admission,
    wanted: Wanted,
)
    requires seat { IsSeatOf words.now.table_id words.now.key capacity seat.old }
    requires message { IsMessage capacity (blank wanted.type_id wanted.len) }
    requires near { (admission.tail ≤ admission.place) × (admission.place ≤ admission.tail + capacity) }
    requires newest { HasNewest admission.tail admission.place wanted.len seat.old.me.0 }
    ensures seat { IsSameSeat seat.old seat.new }
    ensures opened { (cs : List StagedClaim) (c : StagedClaim)
        → IsNewest admission.tail admission.place wanted.len cs c seat.old.me.0
        → seat.new.me.0 ≡ with_claims (cs ++ with_header wanted.type_id wanted.len c ∷ []) seat.old.me.0 }
{
    store_padding(words, seat, capacity, admission);
    B::store_claimed_header(words, seat, capacity, admission.place, wanted);
}
