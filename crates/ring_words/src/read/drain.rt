//! Taking what is left in a ring.
ghost use Rattle.std.specs.Prelude.{◌≡◌, List, [], length};
ghost use Rattle.ring_layout.specs.{declared.message.Claim.Claim, History.committed_of};
ghost use Rattle.ring_words.specs.{Ring.Has, Open.ClaimAt, Open.IsOpen, Drain.AllSettled, Drain.Drains};

use crate::read::action::Action;
use crate::read::handler::Handler;
use crate::ring::SoloRing;

/// Takes any message, and does nothing with it.
#[derive(Drop)]
struct Ignore;

impl Handler for Ignore {
    ghost step = { λ s m t action. Unit {0} };

    fn on_message(&mut self, _type_id: i32, _body: &[u8]) -> Action {
        Action::Continue
    }
}

impl SoloRing {
    /// Takes all messages that can be read, and returns their number. An open claim stays, with everything after it. If
    /// no claim is open, all messages are counted and the ring is empty afterwards.
    pub fn drain(&mut self) -> u32
        ensures drained { (h : List Claim) → Has self.old h → Drains h result self.new }
        ensures whole { (h : List Claim) → Has self.old h → AllSettled h
            → (result ≡ length (committed_of h)) × Has self.new [] }
        ensures claims { (t : ClaimAt) → IsOpen self.old t → IsOpen self.new t }
    {
        // The ring's invariant: it holds fewer messages than the limit, and wraps at most once.
        let _ = &self.words;
        self.read_across(u32::MAX, &mut Ignore).messages
    }
}
