//! The next message of a ring, taken without a copy.
ghost use Rattle.std.specs.Prelude.{◌≡◌, false};
ghost use Rattle.ring_ends.specs.End.{Does};
ghost use Rattle.ring_ends.specs.{Handlers.Takes, Next.HadNone, Next.RanOut, Next.ReceivesAny, Next.TakesNext};

use crate::consumer::ConsumerEnd;
use ring_rings::{Action, Bodies, Handler, Kind, Stop};

/// Takes one message, and copies nothing.
#[derive(Drop)]
pub(crate) struct Taking {
    took: bool,
}

impl Handler for Taking {
    ghost step = { λ s m t a. Takes s m t a };

    fn on_message(&mut self, _type_id: i32, _body: &[u8]) -> Action {
        self.took = true;
        Action::Break
    }

    fn on_header(&mut self, _type_id: i32, _len: usize) -> Option<Action> {
        self.took = true;
        Some(Action::Break)
    }
}

impl<K: Kind, B: Bodies> ConsumerEnd<K, B> {
    /// Takes up to one message, as far as the end of the ring's buffer, and returns why it stopped.
    fn take_one(&mut self, taking: &mut Taking) -> Stop
        requires waits { taking.old.took ≡ false }
        ensures does { Does (λ v stop w. TakesNext (RanOut 1 stop) v taking.new.took w) self.old result self.new }
    {
        self.controlled_read(1, taking).stopped
    }

    /// Takes the next message, copies nothing, and returns whether there was one. A read that comes to the end of the
    /// ring's buffer goes on after it, once. Never waits.
    pub fn take_next(&mut self) -> bool
        ensures received { ReceivesAny self.old result self.new }
        ensures does { Does (TakesNext (HadNone 1)) self.old result self.new }
    {
        let mut taking = Taking { took: false };
        let stopped = self.take_one(&mut taking);
        if !taking.took && stopped == Stop::Block {
            self.take_one(&mut taking);
        }
        taking.took
    }
}
