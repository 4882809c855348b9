//! One try to claim or to write. Only the move of the tail depends on the kind of the ring.
ghost use Rattle.std.specs.Prelude.{◌≡◌, length, replicate, [], ◌∷◌, ◌++◌, IfErr, IfOk, OnErr, OnOk};
ghost use Rattle.ring_rings.specs.Claiming.{Claims, RefusesTry, Writes};
ghost use Rattle.ring_rings.specs.{Ring.message, Ring.sent, Ring.HasMessage, Seats.MayClaim, Seats.OpensNone};
ghost use Rattle.ring_rings.specs.Seats.{capacity_of, view_of, IsNewClaimOf, IsProducerOf, KeepsHoldings};

use crate::bodies::Bodies;
use crate::claim::Claim;
use crate::fault::TryFault;
use crate::kind::Kind;
use crate::producer::record::{store_headers, store_padding};
use crate::ring::{Producer, Ring};
use ring_table::Wanted;

impl<K: Kind, B: Bodies> Ring<K, B> {
    /// Makes one try to claim, as `OneToOneRing::claim` and `ManyToOneRing::claim_once` do. The call never waits.
    pub fn try_claim(
        &self,
        producer: &mut Producer,
        type_id: i32,
        len: usize,
    ) -> Result<Claim, TryFault>
        requires producer { IsProducerOf self.now producer.old }
        requires sole { MayClaim K.many producer.old }
        ensures producer { IsProducerOf self.now producer.new }
        ensures sent { sent producer.new ≡ sent producer.old }
        ensures message { IfOk result (λ t. HasMessage producer.new t.place (message type_id (replicate len 0))) }
        ensures claimed { IfOk result (λ t.
            Claims K.many (capacity_of self.now) type_id len (view_of producer.old) t (view_of producer.new)) }
        ensures refused { IfErr result (λ fault.
            RefusesTry K.many (capacity_of self.now) type_id len (view_of producer.old) fault (view_of producer.new)) }
        ensures opened { IfOk result (IsNewClaimOf self.now producer.old producer.new) }
        ensures keeps { KeepsHoldings self.now producer.old producer.new }
    {
        let wanted = Wanted { type_id, len };
        let (words, own_tail) = (&self.table.shared, producer.own_tail);
        let seat = &mut producer.seat;
        let admission = K::try_move(words, seat, self.capacity, own_tail, wanted)?;
        store_headers(words, seat, self.capacity, admission, wanted);
        producer.own_tail = admission.end;
        producer.open_claims += 1;
        Ok(Claim::new(self.capacity, admission.place, wanted))
    }

    /// Makes one try to write, as `OneToOneRing::write` and `ManyToOneRing::write_once` do. The call never waits.
    #[inline(always)]
    pub fn try_write(
        &self,
        producer: &mut Producer,
        type_id: i32,
        body: &[u8],
    ) -> Result<(), TryFault>
        requires producer { IsProducerOf self.now producer.old }
        requires sole { MayClaim K.many producer.old }
        ensures producer { IsProducerOf self.now producer.new }
        ensures sent { OnOk result (sent producer.new ≡ sent producer.old ++ message type_id body.now ∷ [])
            × OnErr result (sent producer.new ≡ sent producer.old) }
        ensures written { OnOk result
            (Writes K.many (capacity_of self.now) type_id body.now (view_of producer.old) (view_of producer.new)) }
        ensures refused { IfErr result (λ fault.
            RefusesTry K.many (capacity_of self.now) type_id (length body.now)
            (view_of producer.old) fault (view_of producer.new)) }
        ensures keeps { OpensNone self.now producer.old producer.new }
    {
        let wanted = Wanted {
            type_id,
            len: body.len(),
        };
        let (words, own_tail) = (&self.table.shared, producer.own_tail);
        let seat = &mut producer.seat;
        let admission = K::try_move(words, seat, self.capacity, own_tail, wanted)?;
        store_padding(words, seat, self.capacity, admission);
        B::store_record(words, seat, self.capacity, admission.place, wanted, body);
        producer.own_tail = admission.end;
        Ok(())
    }
}
