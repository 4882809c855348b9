//! Batches of a plain ring: messages that are written together. The records of a run are published by one store.
ghost use Rattle.std.specs.Prelude.{◌≡◌, ◌+◌, ◌%◌, ◌/◌, ◌^◌, ◌≤◌, ◌<◌, ◌++◌, All, IfErr, IfOk, None, OnErr, OnOk, drop as without_first, length, pos, take as first_of, ◌-◌};
ghost use Rattle.ring_layout.specs.Places.{IsCapacity, max_position};
ghost use Rattle.ring_table.specs.{RunBodies.messages_of as batch_of, RunBodies.IsSendable, declared.view.View.View};
ghost use Rattle.ring_table.specs.Runs.{run_bytes};
ghost use Rattle.ring_rings.specs.{Batches.batch_refusal_of, Batches.RefusesBatch, Batches.StopsAtFirst, Ring.sent};
ghost use Rattle.ring_rings.specs.{Claiming.IsRefusedBy, Claiming.RefusesTry, declared.fault.TryFault.TryFault};
ghost use Rattle.ring_rings.specs.Making.{KnowsTail};
ghost use Rattle.ring_rings.specs.Seats.{capacity_of, view_of, IsProducerOf, MayClaim, OpensNone};

use crate::fault::TryFault;
use crate::kind::Kind;
use crate::producer::room::test_request;
use crate::ring::{Producer, Ring};
use ring_layout::{byte_index, max_message, span};
use ring_table::{InSlots, Outgoing, Wanted, write_run};
use ring_words::ClaimFault;

/// The first messages of a batch, and the number of bytes that their records take.
#[derive(Clone, Copy)]
struct Fitting {
    count: usize,
    bytes: usize,
}

/// Counts the first messages whose records take `limit` bytes or fewer.
fn count_fitting(capacity: u32, messages: &[Outgoing<'_>], limit: usize) -> Fitting
    requires small { (capacity ≤ 2 ^ 24) × (limit ≤ 2 ^ 24) }
    requires messages { All (IsSendable capacity) messages.now }
    ensures count { result.count ≤ length messages.now }
    ensures bytes { run_bytes (batch_of (first_of result.count messages.now)) ≡ result.bytes }
    ensures fits { result.bytes ≤ limit }
{
    let mut fitting = Fitting { count: 0, bytes: 0 };
    for message in messages {
        let bytes = fitting.bytes + span(message.body.len()) as usize;
        if bytes > limit {
            return fitting;
        }
        fitting = Fitting {
            count: fitting.count + 1,
            bytes,
        };
    }
    fitting
}

/// Returns the greatest number of bytes of a run at this tail. It does not go beyond the end of the buffer, and has at
/// most the bytes of the longest message's record, since it is claimed as one message.
fn run_limit(capacity: u32, tail: u64) -> usize
    requires capacity { IsCapacity capacity }
    ensures inside { tail % capacity + result ≤ capacity }
    ensures short { result ≤ capacity / 8 + 8 }
{
    let room = capacity - byte_index(capacity, tail) as u32;
    let most = max_message(capacity) + 8;
    if room < most {
        return room as usize;
    }
    most as usize
}

/// Tests the type ids and the lengths of messages.
fn test_batch(capacity: u32, messages: &[Outgoing<'_>]) -> Result<(), ClaimFault>
    ensures refused { IsRefusedBy (batch_refusal_of capacity (batch_of messages.now)) result }
    ensures sendable { OnOk result (All (IsSendable capacity) messages.now) }
{
    for message in messages {
        let wanted = Wanted {
            type_id: message.type_id,
            len: message.body.len(),
        };
        test_request(capacity, wanted)?;
    }
    Ok(())
}

impl<K: Kind> Ring<K, InSlots> {
    /// Writes the messages of a batch in their order, and returns how many were written. Those that were written are
    /// the first ones. They are all messages, unless there was no room for more, or another producer was faster.
    /// If nothing could be written, the call returns an error, so it returns 0 only for an empty batch.
    ///
    /// Messages whose records are next to one another in the buffer are one run, of at most an eighth of the capacity.
    /// A run costs one move of the tail and one store of a mark, as a single message does. The consumer sees all
    /// messages of a run at once.
    ///
    /// These are the errors, in this order. After an error nothing was written:
    /// - `BadType` or `TooLong` if a message has a type id below 1, or more bytes than an eighth of the capacity. The
    ///   messages are tested in their order, before any is written;
    /// - the refusals of one try to write the first message, which are those of `ManyToOneRing::write_once`.
    ///
    /// If not all messages were written, the try to write the next one was refused. The next call returns why, unless
    /// it finds room.
    ///
    /// The call never waits. Only the owner of the producer may call it, from any thread.
    pub fn write_batch(
        &self,
        producer: &mut Producer,
        messages: &[Outgoing<'_>],
    ) -> Result<usize, TryFault>
        requires producer { IsProducerOf self.now producer.old }
        requires sole { MayClaim K.many producer.old }
        ensures producer { IsProducerOf self.now producer.new }
        ensures sent { IfOk result (λ n. sent producer.new ≡ sent producer.old ++ batch_of (first_of n messages.now))
            × OnErr result (sent producer.new ≡ sent producer.old) }
        ensures count { IfOk result (λ n. n ≤ length messages.now) }
        ensures some { 0 < length messages.now → IfOk result (λ n. 0 < n) }
        ensures stops { IfOk result (λ n. n < length messages.now → (fault : TryFault) ×
            StopsAtFirst K.many (capacity_of self.now) (batch_of (without_first n messages.now)) fault
            (view_of producer.new)) }
        ensures request { OnOk result (batch_refusal_of (capacity_of self.now) (batch_of messages.now) ≡ None) }
        ensures refused { IfErr result (λ fault. RefusesBatch K.many (capacity_of self.now) (batch_of messages.now)
            (view_of producer.old) fault (view_of producer.new)) }
        ensures keeps { OpensNone self.now producer.old producer.new }
    {
        test_batch(self.capacity, messages)?;
        let mut written = 0;
        while written < messages.len() {
            match self.try_some(producer, &messages[written..]) {
                Ok(count) => written += count,
                Err(fault) => {
                    if written == 0 {
                        return Err(fault);
                    }
                    return Ok(written);
                }
            }
        }
        Ok(written)
    }

    /// Makes one try to write the first messages of a batch as one run. If there is no room for them, it makes one try
    /// to write the first message alone. Returns how many were written.
    fn try_some(
        &self,
        producer: &mut Producer,
        messages: &[Outgoing<'_>],
    ) -> Result<usize, TryFault>
        requires producer { IsProducerOf self.now producer.old }
        requires sole { MayClaim K.many producer.old }
        requires some { 0 < length messages.now }
        requires messages { All (IsSendable (capacity_of self.now)) messages.now }
        ensures producer { IsProducerOf self.now producer.new }
        ensures sent { IfOk result (λ n. sent producer.new ≡ sent producer.old ++ batch_of (first_of n messages.now))
            × OnErr result (sent producer.new ≡ sent producer.old) }
        ensures count { IfOk result (λ n. (0 < n) × (n ≤ length messages.now)) }
        ensures stops { IfErr result (λ fault. StopsAtFirst K.many (capacity_of self.now) (batch_of messages.now) fault
            (view_of producer.new)) }
        ensures keeps { OpensNone self.now producer.old producer.new }
    {
        let capacity = self.capacity;
        let (words, own_tail) = (&self.table.shared, producer.own_tail);
        let tail = K::learn_tail(words, &mut producer.seat, capacity, own_tail);
        let fitting = count_fitting(capacity, messages, run_limit(capacity, tail));
        let (count, bytes) = (fitting.count, fitting.bytes);
        if count < 2 {
            return self.try_first(producer, messages);
        }
        match self.try_run(producer, tail, bytes, &messages[..count]) {
            Ok(()) => Ok(count),
            Err(TryFault::Refused(_)) => self.try_first(producer, messages),
            Err(TryFault::Contended { tail, seen }) => Err(TryFault::Contended { tail, seen }),
        }
    }

    /// Makes one try to write the first message of a batch. Returns 1.
    fn try_first(
        &self,
        producer: &mut Producer,
        messages: &[Outgoing<'_>],
    ) -> Result<usize, TryFault>
        requires producer { IsProducerOf self.now producer.old }
        requires sole { MayClaim K.many producer.old }
        requires some { 0 < length messages.now }
        requires messages { All (IsSendable (capacity_of self.now)) messages.now }
        ensures producer { IsProducerOf self.now producer.new }
        ensures sent { IfOk result (λ n. sent producer.new ≡ sent producer.old ++ batch_of (first_of n messages.now))
            × OnErr result (sent producer.new ≡ sent producer.old) }
        ensures count { IfOk result (λ n. n ≡ 1) }
        ensures stops { IfErr result (λ fault. StopsAtFirst K.many (capacity_of self.now) (batch_of messages.now) fault
            (view_of producer.new)) }
        ensures keeps { OpensNone self.now producer.old producer.new }
    {
        let first = messages[0];
        self.try_write(producer, first.type_id, first.body)?;
        Ok(1)
    }

    /// Makes one try to write these messages as one run at the tail, which was learnt. The call never waits.
    fn try_run(
        &self,
        producer: &mut Producer,
        tail: u64,
        bytes: usize,
        messages: &[Outgoing<'_>],
    ) -> Result<(), TryFault>
        requires producer { IsProducerOf self.now producer.old }
        requires sole { MayClaim K.many producer.old }
        requires known { (v : View) × KnowsTail K.many (capacity_of self.now) v tail (view_of producer.old) }
        requires position { (tail % 8 ≡ 0) × (tail ≤ max_position) }
        requires some { 0 < length messages.now }
        requires messages { All (IsSendable (capacity_of self.now)) messages.now }
        requires bytes { run_bytes (batch_of messages.now) ≡ bytes }
        requires inside { tail % capacity_of self.now + bytes ≤ capacity_of self.now }
        requires short { bytes ≤ capacity_of self.now / 8 + 8 }
        ensures producer { IsProducerOf self.now producer.new }
        ensures sent { OnOk result (sent producer.new ≡ sent producer.old ++ batch_of messages.now)
            × OnErr result (sent producer.new ≡ sent producer.old) }
        ensures refused { IfErr result (λ fault. (v : View) ×
            RefusesTry K.many (capacity_of self.now) (pos 1) (bytes - 8) v fault (view_of producer.new)) }
        ensures keeps { OpensNone self.now producer.old producer.new }
    {
        let wanted = Wanted {
            type_id: 1,
            len: bytes - 8,
        };
        let (words, seat) = (&self.table.shared, &mut producer.seat);
        let admission = K::move_from(words, seat, self.capacity, tail, wanted)?;
        write_run(words, seat, self.capacity, tail, bytes, messages);
        producer.own_tail = admission.end;
        Ok(())
    }
}
