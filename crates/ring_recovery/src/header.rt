//! One header.
ghost use Rattle.std.specs.Prelude.{◌≡◌, ◌+◌, ◌≤◌, nat_abs, IfOk};
ghost use Rattle.ring_layout.specs.{Places.IsCapacity, Places.rounded, Refusals.IsRefusedBy};
ghost use Rattle.ring_snapshot.specs.RingRecords.{is_length};
ghost use Rattle.ring_recovery.specs.Headers.{bytes_in, header_finding, is_open, is_type};

use ring_layout::record_descriptor::HEADER_LENGTH;
use ring_layout::{align8, byte_index, max_message, unpack_header};
use ring_snapshot::RingFinding;

/// Tests whether a record of this length, header included, may begin at a position before the tail.
pub(crate) fn is_length(capacity: u32, tail: u64, at: u64, length: u32) -> bool
    requires capacity { IsCapacity capacity }
    requires order { at ≤ tail }
    ensures { result ≡ is_length capacity tail at length }
{
    if length < HEADER_LENGTH as u32 || length > HEADER_LENGTH as u32 + max_message(capacity) {
        return false;
    }
    let span = align8(u64::from(length));
    span <= u64::from(capacity) - byte_index(capacity, at) && span <= tail - at
}

/// Tests whether a record has this length and this type id.
fn is_type(len: i32, type_id: i32) -> bool
    ensures { result ≡ is_type len type_id }
{
    type_id > 0 || (len > 0 && type_id < 0 && type_id > -3)
}

/// Tests whether a header is that of an open claim.
pub(crate) fn is_open(header: u64) -> bool
    ensures { result ≡ is_open header }
{
    let (len, _type_id) = unpack_header(header);
    len < 0
}

/// Tests the header at a position. The record before it ends at `end`. Returns the end of the header's record.
pub(crate) fn check_header(
    capacity: u32,
    tail: u64,
    end: u64,
    at: u64,
    header: u64,
) -> Result<u64, RingFinding>
    requires capacity { IsCapacity capacity }
    requires order { at ≤ tail }
    ensures refused { IsRefusedBy (header_finding capacity tail end at header) result }
    ensures end { IfOk result (λ e. e ≡ at + rounded (bytes_in header)) }
{
    let index = byte_index(capacity, at) as u32;
    let (len, type_id) = unpack_header(header);
    let length = len.unsigned_abs();
    if at < end || !is_length(capacity, tail, at, length) {
        return Err(RingFinding::BadLength { index, length: len });
    }
    if !is_type(len, type_id) {
        return Err(RingFinding::BadType { index, type_id });
    }
    Ok(at + align8(u64::from(length)))
}
