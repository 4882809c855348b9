//! Batches of a plain ring: messages that a producer writes together.
ghost use Rattle.std.specs.Prelude.{◌≡◌, ◌≤◌, ◌<◌, IfErr, IfOk, None, OnOk, drop as without_first, length};
ghost use Rattle.ring_table.specs.RunBodies.{messages_of as batch_of};
ghost use Rattle.ring_rings.specs.Batches.{batch_refusal_of, RefusesBatch, StopsAtFirst};
ghost use Rattle.ring_rings.specs.declared.fault.TryFault.{TryFault};
ghost use Rattle.ring_ends.specs.{Claiming.KeepsNumbered, Claiming.OfEnd, End.OpensNone, End.SendsFirst};

use crate::claiming::NumberedEnd;
use crate::producer::ProducerEnd;
use ring_rings::{InSlots, Kind, Outgoing, TryFault};

impl<K: Kind> ProducerEnd<K, InSlots> {
    /// Writes the messages of a batch in their order, and returns how many were written. Those that were written are
    /// the first ones. They are all messages, unless the try to write the next one was refused. If nothing could be
    /// written, the call returns an error, so it returns 0 only for an empty batch. The errors are those of
    /// `Ring::write_batch`. It never waits.
    pub fn write_batch(&mut self, messages: &[Outgoing<'_>]) -> Result<usize, TryFault>
        ensures sent { SendsFirst messages.now self.old result self.new }
        ensures count { IfOk result (λ n. n ≤ length messages.now) }
        ensures some { 0 < length messages.now → IfOk result (λ n. 0 < n) }
        ensures stops { IfOk result (λ n. n < length messages.now → (fault : TryFault) ×
            StopsAtFirst self.old.many self.old.capacity (batch_of (without_first n messages.now)) fault
            self.new.view) }
        ensures request { OnOk result (batch_refusal_of self.old.capacity (batch_of messages.now) ≡ None) }
        ensures refused { IfErr result (λ fault. RefusesBatch self.old.many self.old.capacity (batch_of messages.now)
            self.old.view fault self.new.view) }
        ensures keeps { OpensNone self.old self.new }
    {
        self.ring.write_batch(&mut self.producer, messages)
    }
}

impl<K: Kind> NumberedEnd<K, InSlots> {
    /// Writes the messages of a batch, as `ProducerEnd::write_batch` does.
    pub fn write_batch(&mut self, messages: &[Outgoing<'_>]) -> Result<usize, TryFault>
        ensures sent { OfEnd (SendsFirst messages.now) self.old result self.new }
        ensures count { IfOk result (λ n. n ≤ length messages.now) }
        ensures some { 0 < length messages.now → IfOk result (λ n. 0 < n) }
        ensures stops { IfOk result (λ n. n < length messages.now → (fault : TryFault) ×
            StopsAtFirst self.old.end.many self.old.end.capacity (batch_of (without_first n messages.now)) fault
            self.new.end.view) }
        ensures request { OnOk result (batch_refusal_of self.old.end.capacity (batch_of messages.now) ≡ None) }
        ensures refused { IfErr result (λ fault. RefusesBatch self.old.end.many self.old.end.capacity
            (batch_of messages.now) self.old.end.view fault self.new.end.view) }
        ensures keeps { KeepsNumbered self.old self.new }
    {
        self.end.write_batch(messages)
    }
}
