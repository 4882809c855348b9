//! Tests of a claim, its place, and the search for room in the ring.
ghost use Rattle.ring_layout.specs.Places.{IsCapacity, max_position};
ghost use Rattle.ring_rings.specs.Claiming.{IsRefusedBy, request_refusal_of, tail_refusal_of};
ghost use Rattle.ring_rings.specs.Making.{FindsRoom, FindsShortage, GoesBehind};
ghost use Rattle.ring_table.specs.Seats.{IsSameSeat, IsSeatOf};
ghost use Rattle.std.specs.Prelude.{◌≡◌, MatchResult, ◌%◌, ◌≤◌, IfOk, None};

use crate::fault::TryFault;
use ring_layout::{
    Admission, has_room, is_length, is_position, is_type_id, max_message, place_record,
};
use ring_table::{Mode, RingSeat, SharedRing, Wanted, load_cache, load_head, store_cache};
use ring_words::ClaimFault;

/// Looks for room for a claim, first after the cached head, and then after the head.
///
/// Returns `Contended` if one of the two heads is beyond the tail of this claim, since another producer has then moved
/// the tail. Returns `InsufficientCapacity` if there is no room after the head.
#[inline(always)]
pub(crate) fn find_room<M: Mode>(
    words: &SharedRing<M>,
    seat: &mut RingSeat,
    capacity: u32,
    admission: Admission,
) -> Result<(), TryFault>
    requires seat { IsSeatOf words.now.table_id words.now.key capacity seat.old }
    requires tail { seat.old.me.0.producer.seen_tail ≡ admission.tail }
    ensures seat { IsSameSeat seat.old seat.new }
    ensures found { MatchResult result
        (λ _. FindsRoom capacity admission.tail admission.end seat.old.me.0 seat.new.me.0)
        (λ fault. FindsShortage capacity admission.tail admission.end fault seat.old.me.0 seat.new.me.0) }
{
    let Admission { tail, end, .. } = admission;
    let cached = load_cache(words, seat, capacity);
    if cached > tail {
        return Err(TryFault::Contended { tail, seen: cached });
    }
    if has_room(capacity, end, cached) {
        return Ok(());
    }
    let head = load_head(words, seat, capacity);
    store_cache(words, seat, capacity, head);
    if head > tail {
        return Err(TryFault::Contended { tail, seen: head });
    }
    if has_room(capacity, end, head) {
        return Ok(());
    }
    let fault = ClaimFault::InsufficientCapacity { tail, head };
    Err(TryFault::Refused(fault))
}

/// Tests the type id and the length of a message.
pub(crate) fn test_request(capacity: u32, wanted: Wanted) -> Result<(), ClaimFault>
    ensures { IsRefusedBy (request_refusal_of capacity wanted.type_id wanted.len) result }
{
    let Wanted { type_id, len } = wanted;
    if !is_type_id(type_id) {
        return Err(ClaimFault::BadType { type_id });
    }
    if !is_length(capacity, len) {
        let max = max_message(capacity);
        return Err(ClaimFault::TooLong { len, max });
    }
    Ok(())
}

/// Returns the place of the next message after a tail.
pub(crate) fn admit(capacity: u32, tail: u64, wanted: Wanted) -> Result<Admission, ClaimFault>
    requires capacity { IsCapacity capacity }
    requires request { request_refusal_of capacity wanted.type_id wanted.len ≡ None }
    requires tail { (tail % 8 ≡ 0) × (tail ≤ max_position) }
    ensures refused { IsRefusedBy (tail_refusal_of capacity tail wanted.type_id wanted.len) result }
    ensures admitted { IfOk result (GoesBehind capacity tail wanted.type_id wanted.len) }
    ensures whole { IfOk result (λ a. a.end % 8 ≡ 0) }
{
    let admission = place_record(capacity, tail, wanted.len);
    if !is_position(admission.end) {
        return Err(ClaimFault::PositionLimit { tail });
    }
    Ok(admission)
}
