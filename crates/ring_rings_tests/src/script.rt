//! A handler that compares what it is shown.
use crate::play::shared::Shows;
use ring_words::{Action, Handler, ReadEnd, Stop};

pub const BODY: [u8; 16] = [0, 1, 2, 3, 4, 5, 6, 7, 8, 9, 10, 11, 12, 13, 14, 15];

/// A type id and a body.
pub type Message<'a> = (i32, &'a [u8]);

/// Compares the messages that it is shown with those that it expects, and replies by a script. After the script
/// it goes on. It needs the bytes of messages up to a length, and decides on longer ones by their headers.
#[derive(Drop)]
pub struct Script<'a> {
    actions: &'a [Action],
    expected: &'a [Message<'a>],
    longest: usize,
    shown: usize,
    right: bool,
}

impl<'a> Script<'a> {
    pub fn new(actions: &'a [Action], expected: &'a [Message<'a>]) -> Self {
        Script::up_to(actions, expected, usize::MAX)
    }

    /// One that needs the bytes of messages up to this length.
    pub fn up_to(actions: &'a [Action], expected: &'a [Message<'a>], longest: usize) -> Self {
        Script {
            actions,
            expected,
            longest,
            shown: 0,
            right: true,
        }
    }

    fn reply(&mut self, is_expected: bool) -> Action {
        let index = self.shown;
        self.right = self.right && is_expected;
        self.shown = index.saturating_add(1);
        self.actions.get(index).copied().unwrap_or(Action::Continue)
    }

    /// Tests whether the expected messages were shown, and no others.
    pub fn is_done(&self) -> bool {
        self.right && self.shown == self.expected.len()
    }
}

impl Handler for Script<'_> {
    ghost step = { λ s m t action. Unit {0} };

    fn on_message(&mut self, type_id: i32, body: &[u8]) -> Action {
        let is_expected = match self.expected.get(self.shown) {
            Some((expected, bytes)) => *expected == type_id && *bytes == body,
            None => false,
        };
        self.reply(is_expected && body.len() <= self.longest)
    }

    fn on_header(&mut self, type_id: i32, len: usize) -> Option<Action> {
        if len <= self.longest {
            return None;
        }
        let is_expected = match self.expected.get(self.shown) {
            Some((expected, bytes)) => *expected == type_id && bytes.len() == len,
            None => false,
        };
        Some(self.reply(is_expected))
    }
}

impl Shows for Script<'_> {
    fn shown(&self) -> u64 {
        self.shown as u64
    }
}

pub fn end(messages: u32, bytes: u64, stopped: Stop) -> ReadEnd {
    ReadEnd {
        messages,
        bytes,
        stopped,
    }
}
