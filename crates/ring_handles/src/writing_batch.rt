//! Batches that a producer writes, from bytes in which their messages lie one after another.
ghost use Rattle.std.specs.Prelude.{◌≡◌, ℕ, ◌+◌, ◌*◌, ◌^◌, ◌≤◌, ◌<◌, ◌++◌, IfErr, IfOk, List, OnOk, length, take as first_of};
ghost use Rattle.ring_layout.specs.declared.message.Message.{Message};
ghost use Rattle.ring_ends.specs.{Claiming.KeepsNumbered, End.sent};
ghost use Rattle.ring_handles.specs.{Batch.span_in, Side.side, declared.identity.Identity.Identity};
ghost use Rattle.ring_handles.specs.WritingBatch.{message_at, word_at, Begins, HasRest, HasType, IsBadRecord, IsBatch, IsInside, IsNoBatch, IsRecord, StopsAt, WritesSome, WroteBatch};
ghost use Rattle.ring_table.specs.RunBodies.{message_of, messages_of as batch_of};

use crate::batch::span_in;
use crate::code::{BAD_TYPE, DONE, PUT_RANGE, TOO_LONG};
use crate::producer::ProducerSide;
use crate::ring::on_end;
use ring_ends::NumberedEnd;
use ring_layout::{first_word, max_message};
use ring_rings::{InSlots, Kind, Outgoing};

/// The most messages that are passed to the ring at once.
const CHUNK: usize = 64;

/// Returns the word that begins at this byte.
fn word_at(records: &[u8], at: usize) -> u64
    requires { at ≤ length records.now }
    ensures { result ≡ word_at records.now at }
{
    first_word(&records[at..])
}

/// Tests the record that begins at this byte, and returns where the next one begins.
fn test_record(capacity: u32, records: &[u8], at: usize) -> Result<usize, i32>
    requires { (at ≤ length records.now) × (length records.now < 2 ^ 32) }
    ensures next { IfOk result (λ next. IsRecord capacity records.now at
        × (next ≡ at + span_in (word_at records.now at))) }
    ensures refused { IfErr result (λ code. IsBadRecord capacity records.now at code) }
{
    let left = records.len() - at;
    if left < 16 {
        return Err(PUT_RANGE);
    }
    let (len, type_id) = (word_at(records, at), word_at(records, at + 8));
    if len > (left - 16) as u64 {
        return Err(PUT_RANGE);
    }
    if type_id == 0 || type_id >= 1 << 31 {
        return Err(BAD_TYPE);
    }
    if len > u64::from(max_message(capacity)) {
        return Err(TOO_LONG);
    }
    Ok(at + span_in(len as usize))
}

/// Tests all records, so that nothing is written if one of them is refused.
fn test_records(capacity: u32, records: &[u8]) -> Result<(), i32>
    ensures batch { OnOk result ((ms : List Message) × IsBatch capacity records.now ms) }
    ensures refused { IfErr result (λ code. IsNoBatch capacity records.now code) }
{
    if records.len() >= 1 << 32 {
        return Err(PUT_RANGE);
    }
    let mut at = 0;
    while at < records.len() {
        at = test_record(capacity, records, at)?;
    }
    Ok(())
}

/// Returns the message of the record that begins at this byte.
fn message_at<'a>(records: &'a [u8], at: usize) -> Outgoing<'a>
    requires small { length records.now < 2 ^ 32 }
    requires inside { IsInside records.now at }
    requires type_id { HasType records.now at }
    ensures { message_of result ≡ message_at records.now at }
{
    let (len, type_id) = (word_at(records, at) as usize, word_at(records, at + 8));
    Outgoing {
        type_id: type_id as i32,
        body: &records[at + 16..at + 16 + len],
    }
}

/// How many messages were gathered, and the byte after them.
#[derive(Clone, Copy)]
struct Gathered {
    count: usize,
    end: usize,
}

/// Gathers messages from this byte on, until there is no more, or the chunk is full.
fn gather<'a>(records: &'a [u8], start: usize, chunk: &mut [Outgoing<'a>]) -> Gathered
    requires some { (start < length records.now) × (length records.now < 2 ^ 32) × (0 < length chunk.old) }
    requires rest { (C : ℕ) × (ms : List Message) × HasRest C records.now start ms }
    ensures count { (0 < result.count) × (result.count ≤ length chunk.new) }
    ensures end { (start + 16 * result.count ≤ result.end) × (result.end < 2 ^ 32 + 8) }
    ensures size { length chunk.new ≡ length chunk.old }
    ensures gathers { (C : ℕ) → Begins C records.now start (batch_of (first_of result.count chunk.new)) result.end }
{
    let mut gathered = Gathered {
        count: 0,
        end: start,
    };
    while gathered.count < chunk.len() && gathered.end < records.len() {
        let Gathered { count, end } = gathered;
        let message = message_at(records, end);
        chunk[count] = message;
        gathered = Gathered {
            count: count + 1,
            end: end + span_in(message.body.len()),
        };
    }
    gathered
}

/// Writes the first messages, and returns how many were written.
fn write_some<K: Kind>(end: &mut NumberedEnd<K, InSlots>, messages: &[Outgoing<'_>]) -> usize
    ensures count { result ≤ length messages.now }
    ensures sent { sent end.new.end ≡ sent end.old.end ++ batch_of (first_of result messages.now) }
    ensures keeps { KeepsNumbered end.old end.new }
{
    match end.write_batch(messages) {
        Ok(count) => count,
        Err(_) => 0,
    }
}

/// Writes messages in their order, until one is refused. Then it returns how many were written, and the code.
fn write_messages<K: Kind>(
    end: &mut NumberedEnd<K, InSlots>,
    messages: &[Outgoing<'_>],
) -> Result<(), (usize, i32)>
    ensures sent { OnOk result (sent end.new.end ≡ sent end.old.end ++ batch_of messages.now) }
    ensures stops { IfErr result (λ r. StopsAt end.old.end.many end.old.end.capacity (batch_of messages.now) r.0 r.1
        end.old.end.view end.new.end.view) }
    ensures keeps { KeepsNumbered end.old end.new }
{
    let mut written = 0;
    while written < messages.len() {
        written += write_some(end, &messages[written..]);
        if written == messages.len() {
            return Ok(());
        }
        let next = messages[written];
        match end.try_write(next.type_id, next.body) {
            Ok(()) => written += 1,
            Err(fault) => return Err((written, fault.code())),
        }
    }
    Ok(())
}

/// Writes the messages of a batch, a chunk at a time.
fn write_chunks<K: Kind>(
    end: &mut NumberedEnd<K, InSlots>,
    records: &[u8],
    written: &mut u32,
) -> i32
    requires batch { (ms : List Message) × IsBatch end.old.end.capacity records.now ms }
    ensures written { (ms : List Message) → IsBatch end.old.end.capacity records.now ms
        → WritesSome end.old.end.many end.old.end.capacity ms written.new result end.old.end.view end.new.end.view }
    ensures keeps { KeepsNumbered end.old end.new }
{
    let none = Outgoing {
        type_id: 1,
        body: &records[0..0],
    };
    let mut chunk = [none; CHUNK];
    let (mut at, mut count) = (0, 0);
    while at < records.len() {
        let gathered = gather(records, at, &mut chunk);
        if let Err((some, code)) = write_messages(end, &chunk[..gathered.count]) {
            *written = (count + some) as u32;
            return code;
        }
        count += gathered.count;
        at = gathered.end;
    }
    *written = count as u32;
    DONE
}

/// Writes a batch into a ring.
fn write_batch_in<K: Kind>(
    end: &mut NumberedEnd<K, InSlots>,
    records: &[u8],
    written: &mut u32,
) -> i32
    ensures kind { end.new.end.many ≡ end.old.end.many }
    ensures code { (i : Identity) → WroteBatch records.now written.new (side i end.old) (side i end.new) result }
{
    if let Err(code) = test_records(end.capacity(), records) {
        *written = 0;
        return code;
    }
    write_chunks(end, records, written)
}

impl ProducerSide {
    /// Writes the messages of a batch, all or the first ones, and reports how many were written.
    pub fn write_batch(&mut self, records: &[u8], written: &mut u32) -> i32
        ensures { WroteBatch records.now written.new self.old self.new result }
    {
        on_end!(&mut self.end, end => return write_batch_in(end, records, written))
    }
}
