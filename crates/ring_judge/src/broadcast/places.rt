//! The places of all receivers.

ghost use Rattle.std.specs.Prelude.{◌≡◌, ◌<◌, ℕ, All, IfOk, length, vec_len};
ghost use Rattle.ring_judge.specs.Broadcast.{AnswersLine, AreWithin, IsOfReceiverBelow, anywhere, place_of};
ghost use Rattle.ring_judge.specs.declared.broadcast.BroadcastLine.TheVariants.{Receiver};

use crate::broadcast::place::Place;
use crate::broadcast::{BroadcastLine, ReceiverEvent};
use std::alloc::{AllocError, Global};

/// A number that is above that of each receiver.
pub fn receivers_of(run: &[BroadcastLine]) -> usize
    ensures { All (λ line. IsOfReceiverBelow result line) run.now }
{
    let mut count: usize = 0;
    for line in run {
        count = count.max(receivers_in(line));
    }
    count
}

/// A number that is above that of the line's receiver.
fn receivers_in(line: &BroadcastLine) -> usize
    ensures { IsOfReceiverBelow result line.now }
{
    match line {
        BroadcastLine::Receiver(receiver, _) => *receiver as usize + 1,
        BroadcastLine::Transmitted(_) | BroadcastLine::Blank => 0,
    }
}

/// The places of as many receivers, of which nothing was read yet.
pub fn places_of(alloc: Global, count: usize) -> Result<Vec<Place>, AllocError>
    ensures length { IfOk result (λ places. vec_len places ≡ count) }
    ensures places { IfOk result (λ places. (r : ℕ) → place_of places.items r ≡ anywhere) }
{
    let mut places = Vec::new(alloc);
    for made in 0..count {
        places.push(Place::anywhere())?;
    }
    Ok(places)
}

/// Whether the line can come next; its receiver then moves on.
pub fn answer_line(places: &mut Vec<Place>, bodies: &[u64], line: &BroadcastLine) -> bool
    requires below { IsOfReceiverBelow (vec_len places.old) line.now }
    requires within { AreWithin (length bodies.now) places.old.items }
    ensures length { vec_len places.new ≡ vec_len places.old }
    ensures within { AreWithin (length bodies.now) places.new.items }
    ensures answer { AnswersLine bodies.now places.old.items line.now places.new.items result }
{
    match line {
        BroadcastLine::Receiver(receiver, event) => answer_event(
            places,
            bodies,
            *receiver as usize,
            event,
        ),
        BroadcastLine::Transmitted(_) | BroadcastLine::Blank => true,
    }
}

/// Whether the event of this receiver can come next; the receiver then moves on.
fn answer_event(
    places: &mut Vec<Place>,
    bodies: &[u64],
    receiver: usize,
    event: &ReceiverEvent,
) -> bool
    requires below { receiver < vec_len places.old }
    requires within { AreWithin (length bodies.now) places.old.items }
    ensures length { vec_len places.new ≡ vec_len places.old }
    ensures within { AreWithin (length bodies.now) places.new.items }
    ensures answer { AnswersLine bodies.now places.old.items (Receiver receiver event.now) places.new.items result }
{
    places[receiver].answer(bodies, event)
}
