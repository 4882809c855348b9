//! The next message of a ring, copied into a buffer.
ghost use Rattle.std.specs.Prelude.{◌≡◌, ◌≤◌, true, false, length};
ghost use Rattle.ring_layout.specs.History.{overwritten};
ghost use Rattle.ring_ends.specs.{End.received, End.Does, declared.copying.NextMessage.TheVariants.Nothing};
ghost use Rattle.ring_ends.specs.{Handlers.Copies, Next.CopiesNext, Next.HadNone, Next.RanOut, Next.ReceivesNext};

use crate::consumer::ConsumerEnd;
use ring_rings::{Action, Bodies, Handler, Kind, Stop};

/// The result of a call that copies the next message into a buffer.
#[derive(Clone, Copy, Debug, PartialEq, Eq)]
pub enum NextMessage {
    /// The message is at the front of the buffer.
    Copied { type_id: i32, len: usize },
    /// The message is longer than the buffer, and stays in the ring.
    TooLong { type_id: i32, len: usize },
    /// No settled message is at the head.
    Nothing,
}

/// Copies one message, if the buffer has room for it.
#[derive(Drop)]
pub(crate) struct Copying<'a> {
    buffer: &'a mut [u8],
    found: NextMessage,
    /// Whether a message that was copied is taken, or stays in the ring.
    takes: bool,
}

/// Copies bytes to the front of a buffer.
#[inline(always)]
fn copy_front(buffer: &mut [u8], bytes: &[u8])
    requires { length bytes.now ≤ length buffer.old }
    ensures { buffer.new ≡ overwritten 0 bytes.now buffer.old }
{
    buffer[..bytes.len()].copy_from_slice(bytes);
}

impl Handler for Copying<'_> {
    ghost step = { λ s m t a. Copies s m t a };

    fn on_message(&mut self, type_id: i32, body: &[u8]) -> Action {
        let len = body.len();
        if len > self.buffer.len() {
            self.found = NextMessage::TooLong { type_id, len };
            return Action::Abort;
        }
        copy_front(self.buffer, body);
        self.found = NextMessage::Copied { type_id, len };
        if self.takes {
            Action::Break
        } else {
            Action::Abort
        }
    }

    fn on_header(&mut self, type_id: i32, len: usize) -> Option<Action> {
        if len <= self.buffer.len() {
            return None;
        }
        self.found = NextMessage::TooLong { type_id, len };
        Some(Action::Abort)
    }
}

impl<K: Kind, B: Bodies> ConsumerEnd<K, B> {
    /// Copies up to one message, as far as the end of the ring's buffer, and returns why it stopped.
    #[inline(always)]
    fn copy_one(&mut self, copying: &mut Copying<'_>) -> Stop
        requires waits { copying.old.found ≡ Nothing }
        ensures borrow { copying.new.buffer.ghost_name ≡ copying.old.buffer.ghost_name }
        ensures does { Does (λ v stop w. CopiesNext copying.old.takes (RanOut 1 stop) copying.old.buffer.now
            copying.new.buffer.now v copying.new.found w) self.old result self.new }
    {
        self.controlled_read(1, copying).stopped
    }

    /// Copies up to one message into a buffer, as far as the end of the ring's buffer. It also returns why it stopped.
    fn try_copy(&mut self, takes: bool, buffer: &mut [u8]) -> (NextMessage, Stop)
        ensures does { Does (λ v r w. CopiesNext takes (RanOut 1 r.1) buffer.old buffer.new v r.0 w)
            self.old result self.new }
    {
        let mut copying = Copying {
            buffer,
            found: NextMessage::Nothing,
            takes,
        };
        let stopped = self.copy_one(&mut copying);
        (copying.found, stopped)
    }

    /// Copies the next message into a buffer. It is taken, or stays in the ring.
    #[inline(always)]
    fn copy_next(&mut self, takes: bool, buffer: &mut [u8]) -> NextMessage
        ensures does { Does (CopiesNext takes (HadNone 1) buffer.old buffer.new) self.old result self.new }
    {
        let (found, stopped) = self.try_copy(takes, buffer);
        if found == NextMessage::Nothing && stopped == Stop::Block {
            return self.try_copy(takes, buffer).0;
        }
        found
    }

    /// Reads the next message into a buffer. If the message is longer than the buffer, it stays in the ring, and the
    /// buffer is unchanged. A read that comes to the end of the ring's buffer goes on after it, once. Never waits.
    pub fn read_into(&mut self, buffer: &mut [u8]) -> NextMessage
        ensures received { ReceivesNext buffer.new self.old result self.new }
        ensures does { Does (CopiesNext true (HadNone 1) buffer.old buffer.new) self.old result self.new }
    {
        self.copy_next(true, buffer)
    }

    /// Copies the next message into a buffer, as `read_into` does. The message stays in the ring.
    pub fn peek_into(&mut self, buffer: &mut [u8]) -> NextMessage
        ensures received { received self.new ≡ received self.old }
        ensures does { Does (CopiesNext false (HadNone 1) buffer.old buffer.new) self.old result self.new }
    {
        self.copy_next(false, buffer)
    }
}
