//! What C keeps: a pointer that owns what it points to, or null.
ghost use Rattle.std.specs.Prelude.{◌≡◌, ◌≢◌, pos, true, false, MatchResult};
ghost use Rattle.std.specs.{Option.MatchOption as IfOption, Coded.coded_option};
ghost use Rattle.std.specs.declared.option.Option.{Option as Maybe, TheVariants.None, TheVariants.Some};
ghost use Rattle.ring_handles.specs.{Owned.handle_owns, declared.held.Held.Held as Kept};
ghost use Rattle.ring_handles.specs.contracts.held.Held.{the_row};

use crate::code::DONE;
use crate::held::Held;
use crate::loose::Loose;
use std::alloc::Global;
use std::marker::Model;
use std::mem;
use std::ptr::null_mut;

/// A handle. An empty one is null.
#[repr(C)]
pub struct Handle {
    at: *mut u8,
    alloc: Global,
    pub ghost held: { Maybe Kept } by { coded_option the_row.coded },
}

impl Model for Handle {
    ghost also_owns = { λ h. handle_owns the_row h.alloc h.at h.held };
}

/// Puts a value in the place of another, which is dropped. (Of any type, so that the proof reads no drop of `Held`.)
fn overwrite<T: Drop>(place: &mut T, value: T)
    ensures { place.new ≡ value }
{
    *place = value;
}

impl Handle {
    pub(crate) fn empty(alloc: Global) -> Handle
        ensures { result.held ≡ None }
    {
        Handle {
            at: null_mut(),
            alloc,
        }
    }

    fn of_loose(loose: Loose<Held, Global>) -> Handle
        ensures { result.held ≡ Some loose.value }
    {
        let Loose { at, alloc } = loose;
        Handle {
            at: at as *mut u8,
            alloc,
        }
    }

    fn into_loose(self) -> Option<Loose<Held, Global>>
        ensures { IfOption result (self.held ≡ None) (λ l. self.held ≡ Some l.value) }
    {
        let Handle { at, alloc } = self;
        if at.is_null() {
            None
        } else {
            Some(Loose {
                at: at as *mut Held,
                alloc,
            })
        }
    }

    /// The handle of a box.
    pub(crate) fn of(held: Box<Held>) -> Handle
        ensures { result.held ≡ Some held.value }
    {
        Handle::of_loose(Loose::of(held))
    }

    /// The box of a handle, `None` of an empty one.
    pub(crate) fn into_box(self) -> Option<Box<Held>>
        ensures { IfOption result (self.held ≡ None) (λ b. self.held ≡ Some b.value) }
    {
        match self.into_loose() {
            Some(loose) => Some(loose.into_box()),
            None => None,
        }
    }

    /// Takes the box out, and leaves the handle empty.
    #[inline(always)]
    pub fn take(&mut self, alloc: Global) -> Option<Box<Held>>
        ensures left { self.new.held ≡ None }
        ensures taken { IfOption result (self.old.held ≡ None) (λ b. self.old.held ≡ Some b.value) }
    {
        mem::replace(self, Handle::empty(alloc)).into_box()
    }

    /// Puts a box in. What the handle held is dropped.
    #[inline(always)]
    pub fn put(&mut self, held: Box<Held>)
        ensures { self.new.held ≡ Some held.value }
    {
        *self = Handle::of(held);
    }

    /// Puts a value in, by a box that is there. What the handle held is dropped.
    pub fn refill(&mut self, mut room: Box<Held>, held: Held)
        ensures { self.new.held ≡ Some held }
    {
        overwrite(&mut *room, held);
        self.put(room);
    }

    /// Puts a value in, by a box that is there. If there is no value, the box is dropped, and the handle is unchanged.
    pub fn fill(&mut self, room: Box<Held>, held: Option<Held>)
        ensures { IfOption held (self.new.held ≡ self.old.held) (λ h. self.new.held ≡ Some h) }
    {
        match held {
            Some(held) => self.refill(room, held),
            None => drop(room),
        }
    }

    /// Puts in what was made, by a box that is there, and returns 0. If nothing was made, the box is dropped, the
    /// handle is unchanged, and the code is returned.
    pub fn settle(&mut self, room: Box<Held>, made: Result<Held, i32>) -> i32
        ensures { MatchResult made (λ h. (self.new.held ≡ Some h) × (result ≡ pos 0))
            (λ code. (self.new.held ≡ self.old.held) × (result ≡ code)) }
    {
        match made {
            Ok(held) => {
                self.fill(room, Some(held));
                DONE
            }
            Err(code) => {
                self.fill(room, None);
                code
            }
        }
    }

    /// Tests whether the handle is empty, and leaves it as it was.
    pub fn is_empty(&mut self, alloc: Global) -> bool
        ensures same { self.new.held ≡ self.old.held }
        ensures empty { result ≡ true → self.old.held ≡ None }
        ensures full { result ≡ false → self.old.held ≢ None }
    {
        match self.take(alloc) {
            Some(held) => {
                self.put(held);
                false
            }
            None => true,
        }
    }
}

impl Drop for Handle {
    fn drop(self) {
        if let Some(held) = self.into_box() {
            drop(held);
        }
    }
}

unsafe impl Send for Handle {}

/// Takes only what may cross threads.
fn crosses<T: Send>(_value: &T) {}

/// A handle may cross threads, which the bound asks to be proved.
pub fn handle_crosses(handle: &Handle) {
    crosses(handle);
}
