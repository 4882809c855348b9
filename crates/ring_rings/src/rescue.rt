//! The calls that take a ring apart although producers are lost.
ghost use Rattle.std.specs.Prelude.{◌≡◌, ℕ, vec_len, true, []};
ghost use Rattle.ring_table.specs.{Owners.OwnedHistory, Rescued.HadHistory, Rescued.Rescues, Views.with_consumer_of};
ghost use Rattle.ring_rings.specs.Rescuing.{IsRescued};
ghost use Rattle.ring_rings.specs.Seats.{capacity_of, seat_view, start_of, view_of, IsConsumerOf, IsProducerOf};

use crate::bodies::Bodies;
use crate::ring::{Consumer, Producer, Ring};
use atomic_table::Closed;
use ring_table::{RingSeat, RingTable, Unsettled, join_consumer};
use ring_words::SoloRing;
use std::alloc::Global;
use std::snapshot::Snapshot;

/// The result of a rescue. It has the messages that were committed and not read, as a ring of one owner. It also has
/// what lost producers had claimed and not settled.
#[derive(Drop)]
pub struct Rescued {
    pub rest: SoloRing,
    pub unsettled: Unsettled,
    /// What the ring's table left. This field is for contracts, and has no bytes. Contracts read in it which claims
    /// there were.
    pub before: Snapshot<Closed<u64, Global>>,
}

/// Writes the words of a ring into `room`, in the ring's format, and returns them. They are made from a seat that
/// consumes and from what the table left, by name.
fn save_words<B: Bodies>(
    table: RingTable<B>,
    seat: RingSeat,
    capacity: u32,
    room: Vec<u64>,
) -> (Vec<u64>, Unsettled, Snapshot<Closed<u64, Global>>)
    requires table { (seat.table_id ≡ table.shared.table_id)
        × (table.shared.table_id.slots ≡ B.slots_for table.shared.key.capacity) }
    requires capacity { table.shared.key.capacity ≡ capacity }
    requires room { vec_len room ≡ table.shared.table_id.words }
    requires consumes { (seat.me.0.consumes ≡ true) × (seat.me.0.consumer.cleared ≡ seat.me.0.consumer.head) }
    requires home { seat.me.0.out ≡ [] }
    ensures had { (hist : OwnedHistory) × (drawn : ℕ)
        × HadHistory B.bodies table.shared.key seat.me.0 result.2.value hist drawn }
    ensures each { (hist : OwnedHistory) (drawn : ℕ)
        → HadHistory B.bodies table.shared.key seat.me.0 result.2.value hist drawn
        → Rescues capacity table.shared.key.start seat.me.0 hist drawn
        result.0.items result.1.claims result.1.silent }
{
    let closed = table.close_with(seat);
    let before = Snapshot::of(&closed);
    let (words, unsettled) = B::rescue(closed, capacity, room);
    (words, unsettled, before)
}

impl<K, B: Bodies> Ring<K, B> {
    /// Takes the ring apart with its consumer alone, even if producers were lost. Messages that were committed and not
    /// read stay, in their order and at their places. Claims that were not settled are aborted.
    pub fn rescue(self, consumer: Consumer) -> Rescued
        requires consumer { IsConsumerOf self consumer }
        ensures rescued { IsRescued B.bodies (capacity_of self) (start_of self) (seat_view consumer) result }
    {
        let Consumer {
            seat,
            head: _,
            run: _,
            scratch,
        } = consumer;
        let Ring {
            table,
            room,
            capacity,
            kind: _,
        } = self;
        let (words, unsettled, before) = save_words(table, seat, capacity, room);
        Rescued {
            rest: SoloRing::from_words(capacity, words, scratch),
            unsettled,
            before,
        }
    }

    /// Takes the ring apart with its consumer and a producer that is left. The contract distinguishes the claims of
    /// this producer from the claims of others. The open claims of this producer are aborted too, since nothing can
    /// settle them after the ring was taken apart.
    pub fn rescue_with(self, producer: Producer, consumer: Consumer) -> Rescued
        requires producer { IsProducerOf self producer }
        requires consumer { IsConsumerOf self consumer }
        ensures rescued { IsRescued B.bodies (capacity_of self) (start_of self)
            (with_consumer_of (view_of producer) (seat_view consumer)) result }
    {
        let Producer {
            mut seat,
            shares: _,
            open_claims: _,
            own_tail: _,
        } = producer;
        let Consumer {
            seat: reader,
            head: _,
            run: _,
            scratch,
        } = consumer;
        let Ring {
            table,
            room,
            capacity,
            kind: _,
        } = self;
        join_consumer(&table.shared, &mut seat, reader);
        let (words, unsettled, before) = save_words(table, seat, capacity, room);
        Rescued {
            rest: SoloRing::from_words(capacity, words, scratch),
            unsettled,
            before,
        }
    }
}
