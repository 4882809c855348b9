//! Claims of the ring with one owner, and what happens to them.
ghost use Rattle.std.specs.Prelude.{◌≡◌, ◌≢◌, ◌+◌, ◌%◌, ◌<◌, ◌↔◌, pos, ◌≤ℤ◌, length, IfOk, OnOk, OnErr, IsTrue, is_err};
ghost use Rattle.ring_layout.specs.declared.message.ClaimState.TheVariants.{Open, Committed, Aborted};
ghost use Rattle.ring_layout.specs.Places.{IsCapacity};
ghost use Rattle.ring_words.specs.{Ring.tail_of, Open.ClaimAt, Open.IsOpen, Open.fresh_claim, Storing.IsAdmitted};
ghost use Rattle.ring_words.specs.Refusal.{refusal_of, IsRefusedBy};
ghost use Rattle.ring_words.specs.Change.{AppendsClaim, PutsInto, Settles, opened, written};

use crate::claim::SoloClaim;
use crate::fault::{ClaimFault, PutRange};
use crate::positions::Positions;
use crate::ring::SoloRing;
use crate::write::append::{append_claim, append_message};
use crate::write::settle::{put_bytes, settle_at};
use ring_layout::record_descriptor::HEADER_LENGTH;
use ring_layout::{
    Admission, ClaimState, byte_index, has_room, is_length, is_position, is_type_id, max_message,
    place_record,
};

/// The claim of a record that was admitted.
fn new_claim(capacity: u32, admission: Admission, type_id: i32, len: usize) -> SoloClaim
    requires { IsCapacity capacity }
    ensures { result ≡ record {
      place = admission.place;
      index = admission.place % capacity + 8;
      type_id =
          type_id;
      len = len;
    } }
{
    let index = byte_index(capacity, admission.place) as u32 + HEADER_LENGTH as u32;
    SoloClaim::new(admission.place, index, type_id, len)
}

impl SoloRing {
    /// Tests whether a record fits, and returns where it goes.
    fn admit(&self, type_id: i32, len: usize) -> Result<Admission, ClaimFault>
        ensures refused { IsRefusedBy (refusal_of self.now type_id len) result }
        ensures type_id { OnOk result (pos 1 ≤ℤ type_id) }
        ensures admitted { IfOk result (λ a. (a.tail ≡ tail_of self.now) × IsAdmitted self.now len a.place a.end) }
    {
        if !is_type_id(type_id) {
            return Err(ClaimFault::BadType { type_id });
        }
        if !is_length(self.capacity, len) {
            let max = max_message(self.capacity);
            return Err(ClaimFault::TooLong { len, max });
        }
        let Positions { head, tail } = self.positions();
        let admission = place_record(self.capacity, tail, len);
        if !is_position(admission.end) {
            return Err(ClaimFault::PositionLimit { tail });
        }
        if !has_room(self.capacity, admission.end, head) {
            return Err(ClaimFault::InsufficientCapacity { tail, head });
        }
        Ok(admission)
    }

    /// Writes a message: claims room, stores it and commits it.
    ///
    /// Returns, in this order: `BadType` if the type id is below 1; `TooLong` if the body has more than an eighth of
    /// the capacity in bytes; `PositionLimit` if the record would end above 2^62; `InsufficientCapacity` if it does not
    /// fit. After an error nothing has changed.
    pub fn write(&mut self, type_id: i32, body: &[u8]) -> Result<(), ClaimFault>
        ensures refused { IsRefusedBy (refusal_of self.old type_id (length body.now)) result }
        ensures same { OnErr result (self.new ≡ self.old) }
        ensures claimed { OnOk result (AppendsClaim self.old (written type_id body.now) self.new) }
        ensures claims { (t : ClaimAt) → IsOpen self.old t → IsOpen self.new t }
    {
        let admission = self.admit(type_id, body.len())?;
        append_message(&mut self.words, self.capacity, admission, type_id, body);
        Ok(())
    }

    /// Claims room for a message of `len` bytes, which are 0 until they are `put`. The errors are those of `write`.
    /// Several claims may be open at once.
    pub fn claim(&mut self, type_id: i32, len: usize) -> Result<SoloClaim, ClaimFault>
        ensures refused { IsRefusedBy (refusal_of self.old type_id len) result }
        ensures same { OnErr result (self.new ≡ self.old) }
        ensures claimed { OnOk result (AppendsClaim self.old (opened type_id len) self.new) }
        ensures claim { IfOk result (λ t. t ≡ fresh_claim self.old type_id len) }
        ensures is_open { IfOk result (IsOpen self.new) }
        ensures claims { (t : ClaimAt) → IsOpen self.old t → IsOpen self.new t }
        ensures apart { IfOk result (λ new. (t : ClaimAt) → IsOpen self.old t → t.place ≢ new.place) }
    {
        let admission = self.admit(type_id, len)?;
        append_claim(&mut self.words, self.capacity, admission, type_id, len);
        Ok(new_claim(self.capacity, admission, type_id, len))
    }

    /// Puts bytes into an open claim of this ring, from byte `offset` of its body on. Returns `PutRange` if they are
    /// not inside the body; nothing has changed then.
    pub fn put(
        &mut self,
        claim: &mut SoloClaim,
        offset: usize,
        bytes: &[u8],
    ) -> Result<(), PutRange>
        requires { IsOpen self.old claim.old }
        ensures refused { IsTrue (is_err result) ↔ (claim.old.len < offset + length bytes.now) }
        ensures same { OnErr result (self.new ≡ self.old) }
        ensures put { OnOk result (PutsInto self.old claim.old.place offset bytes.now self.new) }
        ensures claim { claim.new ≡ claim.old }
        ensures is_open { IsOpen self.new claim.new }
        ensures claims { (t : ClaimAt) → IsOpen self.old t → IsOpen self.new t }
    {
        let len = claim.len();
        if offset > len || bytes.len() > len - offset {
            return Err(PutRange);
        }
        put_bytes(&mut self.words, self.capacity, claim, offset, bytes);
        Ok(())
    }

    /// Settles an open claim of this ring, as committed or as aborted.
    #[inline]
    fn settle(&mut self, claim: SoloClaim, state: ClaimState)
        requires claim { IsOpen self.old claim }
        requires settled { state ≢ Open }
        ensures settled { Settles self.old claim.place state self.new }
        ensures others { (t : ClaimAt) → IsOpen self.old t → t.place ≢ claim.place → IsOpen self.new t }
    {
        settle_at(&mut self.words, self.capacity, &claim, state);
        claim.spend();
    }

    /// Settles an open claim of this ring: the reader is shown its message.
    pub fn commit(&mut self, claim: SoloClaim)
        requires { IsOpen self.old claim }
        ensures settled { Settles self.old claim.place Committed self.new }
        ensures others { (t : ClaimAt) → IsOpen self.old t → t.place ≢ claim.place → IsOpen self.new t }
    {
        self.settle(claim, ClaimState::Committed);
    }

    /// Settles an open claim of this ring: the reader passes it.
    pub fn abort(&mut self, claim: SoloClaim)
        requires { IsOpen self.old claim }
        ensures settled { Settles self.old claim.place Aborted self.new }
        ensures others { (t : ClaimAt) → IsOpen self.old t → t.place ≢ claim.place → IsOpen self.new t }
    {
        self.settle(claim, ClaimState::Aborted);
    }
}
