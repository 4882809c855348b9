//! Why a line of a ring cannot be, in words.
use ring_judge::{Fate, Judged, RingClaim, RingCopy, RingLine};
use ring_layout::{is_length, is_position, is_type_id, max_message, place_record, span};
use std::alloc::{AllocError, Global};

/// Why the claim cannot be the next one of the ring.
fn claimed(alloc: Global, ring: &Judged, claim: &RingClaim) -> Result<String, AllocError> {
    let Judged { capacity, tail, .. } = ring;
    let length = claim.length as usize;
    if !is_type_id(claim.type_id) {
        return format!(in alloc; "a type id is 1 or more");
    }
    if !is_length(*capacity, length) {
        let longest = max_message(*capacity);
        return format!(in alloc; "a message of this ring has at most {longest} bytes");
    }
    if !capacity.is_power_of_two() || !is_position(*tail) {
        return format!(in alloc; "the claim cannot be here");
    }
    let next = place_record(*capacity, *tail, length);
    let place = next.place;
    if claim.place != place {
        return format!(in alloc; "the next claim of {length} bytes begins at {place}");
    }
    if !is_position(next.end) {
        return format!(in alloc; "the claim ends above the position 4611686018427387904");
    }
    match ring.blocked_at {
        Some(blocked) => format!(in alloc;
            "there is no room: the head never passes the open claim at {blocked}"
        ),
        None => format!(in alloc; "the claim cannot be here"),
    }
}

/// Why the producer cannot be refused this message.
fn full(alloc: Global, ring: &Judged, producer: u16, length: u32) -> Result<String, AllocError> {
    if !is_length(ring.capacity, length as usize) {
        let longest = max_message(ring.capacity);
        return format!(in alloc; "a message of this ring has at most {longest} bytes");
    }
    format!(in alloc;
        "since the claim of producer {producer} before, the ring always had room for {length} bytes"
    )
}

/// The first claim that the consumer did not pass and that was not aborted.
fn first_left(ring: &Judged) -> Option<RingClaim> {
    for (at, claim) in ring.claims.iter().enumerate() {
        if at >= ring.passed && claim.fate != Fate::Aborted {
            return Some(*claim);
        }
    }
    None
}

/// Why the consumer cannot be shown this message.
fn got(alloc: Global, ring: &Judged) -> Result<String, AllocError> {
    match first_left(ring) {
        None => format!(in alloc; "no message is left"),
        Some(
            RingClaim {
                place,
                fate: Fate::Open,
                ..
            },
        ) => { format!(in alloc; "the claim at {place} is open") }
        Some(
            RingClaim {
                place,
                type_id,
                length,
                fate: Fate::Committed(body),
                ..
            },
        ) => format!(in alloc; "the next message is {place} {type_id} {length} {body}"),
        Some(RingClaim { place, .. }) => format!(in alloc; "the claim at {place} was aborted"),
    }
}

/// Why the head cannot be at this position.
fn head(alloc: Global, ring: &Judged) -> Result<String, AllocError> {
    let before = ring.head;
    match first_left(ring) {
        None => format!(in alloc;
            "the head was at {before}, and no claim is left that was not aborted"
        ),
        Some(RingClaim { place, .. }) => format!(in alloc;
            "the head was at {before}, and the next claim that was not aborted is at {place}"
        ),
    }
}

/// Why the head and the tail cannot be at these positions in the end.
fn positions(
    alloc: Global,
    ring: &Judged,
    its_head: u64,
    its_tail: u64,
) -> Result<String, AllocError> {
    let tail = ring.tail;
    if its_tail != tail {
        return format!(in alloc; "the last claim ends at {tail}");
    }
    if tail > its_head.saturating_add(u64::from(ring.capacity)) {
        return format!(in alloc; "the tail is more than the capacity after the head");
    }
    head(alloc, ring)
}

/// Why the consumer cannot find nothing.
fn empty(alloc: Global, ring: &Judged) -> Result<String, AllocError> {
    match first_left(ring) {
        Some(RingClaim { place, .. }) => {
            format!(in alloc; "the message at {place} was committed and not shown")
        }
        None => format!(in alloc; "a message was committed and not shown"),
    }
}

/// The first position from `read` on at which a header of padding or of a claim is, before the position `to`, with the
/// words for what is there.
fn first_header(ring: &Judged, to: u64) -> Option<(u64, &'static str)> {
    let mut end = ring.head;
    for (at, claim) in ring.claims.iter().enumerate() {
        if at >= ring.passed {
            if end < claim.place && ring.read <= end && end < to {
                return Some((end, "padding"));
            }
            if ring.read <= claim.place && claim.place < to {
                return Some((claim.place, "a claim"));
            }
            end = claim.place.saturating_add(span(claim.length as usize));
        }
    }
    None
}

/// Why the word at this position cannot have its value, or a word before it cannot be 0.
fn word(alloc: Global, ring: &Judged, at: u64) -> Result<String, AllocError> {
    let Judged {
        head,
        read,
        tail,
        ..
    } = ring;
    let end = head.saturating_add(u64::from(ring.capacity));
    if *tail > end {
        return format!(in alloc; "the tail is more than the capacity after the head");
    }
    if at < *read || at > end {
        return format!(in alloc; "the words that are left are from {read} to {end}");
    }
    if let Some((place, what)) = first_header(ring, at) {
        return format!(in alloc; "the word at {place} is the header of {what}, and not 0");
    }
    match first_header(ring, at.saturating_add(1)) {
        Some((_, what)) => format!(in alloc; "the header of {what} has another value"),
        None => format!(in alloc; "the word at {at} is 0"),
    }
}

/// Returns the reason why a line cannot be the next one of this ring.
pub fn reason(alloc: Global, ring: &Judged, line: &RingLine) -> Result<String, AllocError> {
    match line {
        RingLine::Claimed(claim) => claimed(alloc, ring, claim),
        RingLine::Full(producer, length) => full(alloc, ring, *producer, *length),
        RingLine::Got(RingCopy { .. }) => got(alloc, ring),
        RingLine::Head(_) => head(alloc, ring),
        RingLine::Positions(its_head, its_tail) => positions(alloc, ring, *its_head, *its_tail),
        RingLine::Word(at, _) => word(alloc, ring, *at),
        RingLine::Rest => {
            let end = ring.head.saturating_add(u64::from(ring.capacity));
            word(alloc, ring, end)
        }
        RingLine::Empty | RingLine::Blank => empty(alloc, ring),
    }
}
