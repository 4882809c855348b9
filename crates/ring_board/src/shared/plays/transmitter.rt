//! The types of what the transmitter's steps say.
ghost use Rattle.std.specs.Prelude.{◌≡◌};
ghost use Rattle.ring_board.specs.Layout.{latest_index};
ghost use Rattle.ring_board.specs.TransmitterSteps.{StoresIntent, StoresPadding, StoresWord, StoresHeader, StoresLatest, StoresTail, Learns};

use crate::shared::view::View;
use atomic_table::Play;

/// The intent is stored.
pub struct StoreIntent;

impl Play<(), View> for StoreIntent {
    ghost then = { λ st m x m'. StoresIntent m x m' };
}

/// A padding header is stored.
pub struct StorePadding;

impl Play<(), View> for StorePadding {
    ghost then = { λ st m x m'. StoresPadding m x m' };
}

/// A word of the body is stored.
pub struct StoreWord;

impl Play<(), View> for StoreWord {
    ghost then = { λ st m x m'. StoresWord m x m' };
}

/// The header is stored.
pub struct StoreHeader;

impl Play<(), View> for StoreHeader {
    ghost then = { λ st m x m'. StoresHeader m x m' };
}

/// Latest is stored.
pub struct StoreLatest;

impl Play<(), View> for StoreLatest {
    ghost then = { λ st m x m'. StoresLatest m x m' };
}

/// The tail is stored.
pub struct StoreTail;

impl Play<(), View> for StoreTail {
    ghost then = { λ st m x m'. StoresTail m x m' };
}

/// The transmitter loads latest.
pub struct Learn;

impl Play<(), View> for Learn {
    ghost then = { λ st m x m'. Learns m x m' × (st.word ≡ latest_index m.0.capacity) };
}
