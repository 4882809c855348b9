//! The types of what the receivers' steps say. A load of a counter says that the step loaded the word of that counter.
ghost use Rattle.std.specs.Prelude.{◌≡◌};
ghost use Rattle.ring_board.specs.Layout.{intent_index, tail_index, latest_index};
ghost use Rattle.ring_board.specs.ReceiverSteps.{LoadsTail, LoadsHeader, LoadsWord, LoadsIntent, AnswersEntry, LoadsLatest, LoadsUnread, ChecksAnswered};

use crate::shared::view::View;
use atomic_table::Play;

/// The tail is loaded.
pub struct LoadTail;

impl Play<(), View> for LoadTail {
    ghost then = { λ st m x m'. LoadsTail m x m' × (st.word ≡ tail_index m.0.capacity) };
}

/// A header is loaded.
pub struct LoadHeader;

impl Play<(), View> for LoadHeader {
    ghost then = { λ st m x m'. LoadsHeader st.word m x m' };
}

/// A word of a body is loaded.
pub struct LoadWord;

impl Play<(), View> for LoadWord {
    ghost then = { λ st m x m'. LoadsWord st.word m x m' };
}

/// The intent is loaded, to validate what was loaded before.
pub struct LoadIntent;

impl Play<(), View> for LoadIntent {
    ghost then = { λ st m x m'. LoadsIntent m x m' × (st.word ≡ intent_index m.0.capacity) };
}

/// The intent is loaded, to validate a header that is returned without its body.
pub struct AnswerEntry;

impl Play<(), View> for AnswerEntry {
    ghost then = { λ st m x m'. AnswersEntry m x m' × (st.word ≡ intent_index m.0.capacity) };
}

/// A word of the body of a returned record is loaded.
pub struct LoadUnread;

impl Play<(), View> for LoadUnread {
    ghost then = { λ st m x m'. LoadsUnread st.word m x m' };
}

/// The intent is loaded, to validate what was loaded of a returned record.
pub struct CheckAnswered;

impl Play<(), View> for CheckAnswered {
    ghost then = { λ st m x m'. ChecksAnswered m x m' × (st.word ≡ intent_index m.0.capacity) };
}

/// Latest is loaded after a failed validation.
pub struct LoadLatest;

impl Play<(), View> for LoadLatest {
    ghost then = { λ st m x m'. LoadsLatest m x m' × (st.word ≡ latest_index m.0.capacity) };
}
