//! The listeners to the conductor's replies.
ghost use Rattle.std.specs.Prelude.{◌≡◌, IfNone, IfOk, IfSome, OnErr, OnSome};
ghost use Rattle.ring_layout.specs.Refusals.{all_shares};
ghost use Rattle.ring_board.specs.{Refusals.subscribe_refusal_of, Refusals.IsSubscribedUnless, Seats.shares_of};
ghost use Rattle.ring_service.specs.Conducting.{KeepsTheRest, transmitter_of};
ghost use Rattle.ring_ends.specs.Held.{IsFree, held_in};
ghost use Rattle.ring_ends.specs.Receivers.{LeavesAt, ReceivesAt, Subscribes, by_number};
ghost use Rattle.ring_scenario.specs.Keeping.{KeepsButListeners, KeepsRing};

use super::CommandService;
use ring_board::SubscribeFault;
use ring_ends::{Received, receive_at};
use std::alloc::{AllocError, Global};

impl CommandService {
    /// Makes a listener, and returns its number. The room for the listener is made first.
    pub fn listen(&mut self, alloc: Global) -> Result<Result<usize, SubscribeFault>, AllocError>
        ensures refused { IfOk result (λ made.
            IsSubscribedUnless (subscribe_refusal_of (shares_of (transmitter_of self.old.conductor))) made) }
        ensures made { IfOk result (λ made. IfOk made (λ number. Subscribes
            (by_number (transmitter_of self.old.conductor) self.old.listeners) number
            (by_number (transmitter_of self.new.conductor) self.new.listeners))) }
        ensures same { IfOk result (λ made. OnErr made ((self.new.conductor ≡ self.old.conductor)
            × (held_in self.new.listeners ≡ held_in self.old.listeners))) }
        ensures others { KeepsTheRest self.old.conductor self.new.conductor }
        ensures rest { KeepsButListeners self.old self.new }
    {
        self.listeners.reserve()?;
        match self.conductor.subscribe(alloc, &self.board) {
            Ok(listener) => Ok(Ok(self.listeners.hold(listener))),
            Err(fault) => Ok(Err(fault)),
        }
    }

    /// Asks the listener of this number for the next reply. Returns `None` if there is no such listener. Nothing has
    /// then changed.
    pub fn hear(&mut self, alloc: Global, number: usize) -> Option<Result<Received, AllocError>>
        ensures told { IfSome result (λ answer. IfOk answer (λ told.
            ReceivesAt told self.old.listeners number self.new.listeners)) }
        ensures free { IfNone result (IsFree (held_in self.old.listeners) number) }
        ensures same { IfNone result (held_in self.new.listeners ≡ held_in self.old.listeners) }
        ensures conductor { self.new.conductor ≡ self.old.conductor }
        ensures rest { KeepsButListeners self.old self.new }
    {
        receive_at(alloc, &self.board, &mut self.listeners, number)
    }

    /// Joins the listener of this number, if it has not left.
    fn dismiss(&mut self, number: usize) -> Option<()>
        ensures left { OnSome result (LeavesAt
            (by_number (transmitter_of self.old.conductor) self.old.listeners) number
            (by_number (transmitter_of self.new.conductor) self.new.listeners)) }
        ensures same { IfNone result (held_in self.new.listeners ≡ held_in self.old.listeners) }
        ensures free { IfNone result (IsFree (held_in self.old.listeners) number) }
        ensures others { KeepsTheRest self.old.conductor self.new.conductor }
        ensures rest { KeepsButListeners self.old self.new }
    {
        let listener = self.listeners.take(number)?;
        self.conductor.join_receiver(&self.board, listener);
        Some(())
    }

    /// Joins all listeners, in rising order of their numbers. The transmitter has all shares afterwards.
    pub(super) fn join_listeners(&mut self)
        ensures shares { shares_of (transmitter_of self.new.conductor) ≡ all_shares }
        ensures others { KeepsTheRest self.old.conductor self.new.conductor }
        ensures ring { KeepsRing self.old self.new }
    {
        for index in 0..self.listeners.drawn() {
            let _ = self.dismiss(index + 1);
        }
    }
}
