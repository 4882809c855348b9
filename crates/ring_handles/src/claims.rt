//! What a producer does, as codes.
ghost use Rattle.std.specs.Prelude.{◌≡◌};
ghost use Rattle.ring_layout.specs.declared.message.ClaimState.TheVariants.{Aborted, Committed};
ghost use Rattle.ring_handles.specs.Producing.{number_code, Claimed, Put, SendsClaim, SendsNone, SendsOut, Settled, Wrote};
ghost use Rattle.ring_handles.specs.{Side.side, declared.identity.Identity.Identity};

use crate::code::{DONE, NO_CLAIM, OUT_OF_MEMORY, PUT_RANGE};
use ring_ends::{ClaimRefused, NumberFault, NumberedEnd};
use ring_rings::{InSlots, Kind};

/// Writes a message, by one try.
#[inline(always)]
pub(crate) fn write_in<K: Kind>(end: &mut NumberedEnd<K, InSlots>, type_id: i32, body: &[u8]) -> i32
    ensures kind { end.new.end.many ≡ end.old.end.many }
    ensures sent { SendsOut type_id body.now end.old.end.view end.new.end.view result }
    ensures code { (i : Identity) → Wrote type_id body.now (side i end.old) (side i end.new) result }
{
    match end.try_write(type_id, body) {
        Ok(()) => DONE,
        Err(fault) => fault.code(),
    }
}

/// Claims room, and keeps the claim.
pub(crate) fn claim_in<K: Kind>(
    end: &mut NumberedEnd<K, InSlots>,
    type_id: i32,
    len: usize,
    number: &mut u64,
) -> i32
    ensures kind { end.new.end.many ≡ end.old.end.many }
    ensures sent { SendsNone end.old.end.view end.new.end.view }
    ensures code { (i : Identity)
        → Claimed type_id len number.old number.new (side i end.old) (side i end.new) result }
{
    match end.claim(type_id, len) {
        Ok(claimed) => {
            *number = claimed.number;
            DONE
        }
        Err(ClaimRefused::Refused(fault)) => fault.code(),
        Err(ClaimRefused::NoMemory) => OUT_OF_MEMORY,
    }
}

/// The code of a call that names a claim by its number.
fn code_of(done: Result<(), NumberFault>) -> i32
    ensures { result ≡ number_code done }
{
    match done {
        Ok(()) => DONE,
        Err(NumberFault::NoClaim) => NO_CLAIM,
        Err(NumberFault::PutRange) => PUT_RANGE,
    }
}

/// Puts bytes into the claim of this number.
pub(crate) fn put_in<K: Kind>(
    end: &mut NumberedEnd<K, InSlots>,
    number: u64,
    offset: usize,
    bytes: &[u8],
) -> i32
    ensures kind { end.new.end.many ≡ end.old.end.many }
    ensures sent { SendsNone end.old.end.view end.new.end.view }
    ensures code { (i : Identity) → Put number offset bytes.now (side i end.old) (side i end.new) result }
{
    code_of(end.put(number, offset, bytes))
}

/// Commits the claim of this number.
pub(crate) fn commit_in<K: Kind>(end: &mut NumberedEnd<K, InSlots>, number: u64) -> i32
    ensures kind { end.new.end.many ≡ end.old.end.many }
    ensures sent { SendsClaim number end.old.end.view end.new.end.view result }
    ensures code { (i : Identity) → Settled Committed number (side i end.old) (side i end.new) result }
{
    code_of(end.commit(number))
}

/// Aborts the claim of this number.
pub(crate) fn abort_in<K: Kind>(end: &mut NumberedEnd<K, InSlots>, number: u64) -> i32
    ensures kind { end.new.end.many ≡ end.old.end.many }
    ensures sent { SendsNone end.old.end.view end.new.end.view }
    ensures code { (i : Identity) → Settled Aborted number (side i end.old) (side i end.new) result }
{
    code_of(end.abort(number))
}
