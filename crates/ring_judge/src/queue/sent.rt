//! What each producer sent.

ghost use Rattle.std.specs.Prelude.{◌≡◌, ◌+◌, ◌<◌, ◌≤◌, ℕ, List, [], ◌∷◌, ◌++◌, All, IfOk, OnOk, length, slice_set, slice_index_or, replicate, vec_len};
ghost use Rattle.ring_judge.specs.{Queue.IsBelow, Queue.part_of, Queue.sent_in, Lists.lists_of};

use crate::message::Message;
use crate::queue::QueueLine;
use std::alloc::{AllocError, Global};

/// A number that is above that of each producer.
pub fn producers_of(run: &[QueueLine]) -> usize
    ensures { All (λ line. IsBelow result line) run.now }
{
    let mut count: usize = 0;
    for line in run {
        count = count.max(producers_in(line));
    }
    count
}

/// A number that is above that of the line's producer.
fn producers_in(line: &QueueLine) -> usize
    ensures { IsBelow result line.now }
{
    match line {
        QueueLine::Sent(message) | QueueLine::Refused(message) | QueueLine::Got(message) =>
            message.producer as usize + 1,
        QueueLine::Empty | QueueLine::Blank => 0,
    }
}

/// The messages that each producer sent, in the order of its calls.
pub fn sent_lists(
    alloc: Global,
    run: &[QueueLine],
    count: usize,
) -> Result<Vec<Vec<Message>>, AllocError>
    requires { All (λ line. IsBelow count line) run.now }
    ensures length { IfOk result (λ lists. vec_len lists ≡ count) }
    ensures lists { IfOk result (λ lists. (p : ℕ) → p < count
        → slice_index_or (lists_of lists.items) p [] ≡ part_of p (sent_in run.now)) }
{
    let mut lists = empty_lists(alloc, count)?;
    for line in run {
        append_sent(&mut lists, line)?;
    }
    Ok(lists)
}

/// How many messages were accepted.
pub fn sent_count(run: &[QueueLine]) -> usize
    ensures { result ≡ length (sent_in run.now) }
{
    let mut count: usize = 0;
    for line in run {
        count += sent_count_in(line);
    }
    count
}

/// How many messages the line says were accepted.
fn sent_count_in(line: &QueueLine) -> usize
    ensures few { result ≤ 1 }
    ensures counted { result ≡ length (sent_in (line.now ∷ [])) }
{
    match line {
        QueueLine::Sent(_) => 1,
        QueueLine::Refused(_) | QueueLine::Got(_) | QueueLine::Empty | QueueLine::Blank => 0,
    }
}

/// As many empty lists.
fn empty_lists(alloc: Global, count: usize) -> Result<Vec<Vec<Message>>, AllocError>
    ensures length { IfOk result (λ lists. vec_len lists ≡ count) }
    ensures lists { IfOk result (λ lists. lists_of lists.items ≡ replicate count []) }
{
    let mut lists = Vec::new(alloc);
    for made in 0..count {
        lists.push(Vec::new(alloc))?;
    }
    Ok(lists)
}

/// Appends the message that a line says was accepted to the list of its producer.
fn append_sent(lists: &mut Vec<Vec<Message>>, line: &QueueLine) -> Result<(), AllocError>
    requires { IsBelow (vec_len lists.old) line.now }
    ensures length { OnOk result (vec_len lists.new ≡ vec_len lists.old) }
    ensures lists { OnOk result ((p : ℕ) → p < vec_len lists.old → slice_index_or (lists_of lists.new.items) p []
        ≡ slice_index_or (lists_of lists.old.items) p [] ++ part_of p (sent_in (line.now ∷ []))) }
{
    match line {
        QueueLine::Sent(message) => append(lists, message.producer as usize, *message),
        QueueLine::Refused(_) | QueueLine::Got(_) | QueueLine::Empty | QueueLine::Blank => Ok(()),
    }
}

/// Appends a message to one of the lists.
fn append(lists: &mut Vec<Vec<Message>>, at: usize, message: Message) -> Result<(), AllocError>
    requires { at < vec_len lists.old }
    ensures length { OnOk result (vec_len lists.new ≡ vec_len lists.old) }
    ensures lists { OnOk result (lists_of lists.new.items
        ≡ slice_set (lists_of lists.old.items) at (slice_index_or (lists_of lists.old.items) at [] ++ message ∷ [])) }
{
    lists[at].push(message)?;
    Ok(())
}
