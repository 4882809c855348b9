//! Things that are kept by number.
ghost use Rattle.std.specs.Prelude.{◌≡◌, ◌-◌, [], IfNone, IfSome, OnOk, Some, length, slice_set};

use std::alloc::{AllocError, Global};

/// Things that are kept by number. Numbers count from 1 and are drawn in turn. No number is given twice.
#[derive(Drop)]
pub struct Numbered<T> {
    /// The thing that is kept under each number, less 1.
    held: Vec<Option<T>>,
}

impl<T> Numbered<T> {
    ghost use Rattle.ring_ends.specs.Held.{Comes, Goes, HasRoomToHold, IsFree, IsHeld, held_in};

    /// Makes an empty collection, of which no number was drawn.
    pub fn new(alloc: Global) -> Self
        ensures { held_in result ≡ [] }
    {
        Numbered {
            held: Vec::new(alloc),
        }
    }

    /// Returns how many numbers were drawn. This is also the last number that was drawn.
    pub fn drawn(&self) -> usize
        ensures { result ≡ length (held_in self.now) }
    {
        self.held.len()
    }

    /// Makes room for one more thing. All things that are kept stay, also if there is no memory.
    pub fn reserve(&mut self) -> Result<(), AllocError>
        ensures room { OnOk result (HasRoomToHold self.new) }
        ensures same { held_in self.new ≡ held_in self.old }
    {
        self.held.reserve(1)
    }

    /// Keeps a thing, for which room was made, under the next number. Returns the number.
    pub fn hold(&mut self, x: T) -> usize
        requires { HasRoomToHold self.old }
        ensures { Comes x (held_in self.old) result (held_in self.new) }
    {
        self.held.push_reserved(Some(x));
        self.drawn()
    }

    /// Returns the thing that is kept under this number. Returns `None` if there is no such thing.
    pub fn get(&self, number: usize) -> Option<&T>
        ensures held { IfSome result (λ x. IsHeld (held_in self.now) number x.now) }
        ensures free { IfNone result (IsFree (held_in self.now) number) }
    {
        let index = number.checked_sub(1)?;
        self.held.get(index)?.as_ref()
    }

    /// Takes the thing that is kept under this number. Returns `None` if there is no such thing. Nothing has then
    /// changed.
    pub fn take(&mut self, number: usize) -> Option<T>
        ensures taken { IfSome result (λ x. Goes x (held_in self.old) number (held_in self.new)) }
        ensures same { IfNone result (held_in self.new ≡ held_in self.old) }
        ensures free { IfNone result (IsFree (held_in self.old) number) }
    {
        let index = number.checked_sub(1)?;
        self.held.get_mut(index)?.take()
    }
}

impl<T> Numbered<T> {
    ghost use Rattle.ring_ends.specs.Held.{IsVacant, held_in};

    /// Keeps a thing again, under the number from which it was taken.
    pub fn put_back(&mut self, number: usize, x: T)
        requires { IsVacant (held_in self.old) number }
        ensures { held_in self.new ≡ slice_set (held_in self.old) (number - 1) (Some x) }
    {
        let old = self.held[number - 1].replace(x);
        let None = old else { unreachable!() };
    }
}
