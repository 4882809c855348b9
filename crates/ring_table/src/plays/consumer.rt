//! What the steps of the consumer say.
ghost use Rattle.std.specs.Prelude.{◌≡◌};
ghost use Rattle.ring_table.specs.Views.{Logs, logged, no_run, with_run};
ghost use Rattle.ring_table.specs.ConsumerSteps.{LoadsHeader, LoadsBody, LoadsPassed, ClearsWord};
ghost use Rattle.ring_table.specs.ConsumerSteps.{StoresHead, StoresHeadBefore};

use crate::view::View;
use atomic_table::Play;

pub struct LoadFirstHeader;

impl Play<u64, View> for LoadFirstHeader {
    ghost then = { λ st me n me'. (me'.1 ≡ me.1)
        × LoadsHeader me.0.capacity me.0.consumer.head me.0.consumer.taken
        (with_run (no_run me.0.consumer.head) me.0) n me'.0
        × Logs st.word n me.0 me'.0 };
}

pub struct LoadNextHeader;

impl Play<u64, View> for LoadNextHeader {
    ghost then = { λ st me n me'. (me'.1 ≡ me.1)
        × LoadsHeader me.0.capacity me.0.consumer.scan me.0.consumer.got
        (with_run (no_run me.0.consumer.scan) me.0) n me'.0
        × Logs st.word n me.0 me'.0 };
}

pub struct LoadBody;

impl Play<u64, View> for LoadBody {
    ghost then = { λ st me n me'. (me'.1 ≡ me.1) × (me'.0 ≡ logged st.word n me.0) × LoadsBody st.word me.0 n };
}

pub struct LoadPassed;

impl Play<u64, View> for LoadPassed {
    ghost then = { λ st me n me'. (me'.1 ≡ me.1) × LoadsPassed me.0 n me'.0 };
}

pub struct ClearWord;

impl Play<u64, View> for ClearWord {
    ghost then = { λ st me n me'. (me'.1 ≡ me.1) × ClearsWord me.0 me'.0 };
}

pub struct StoreHead;

impl Play<u64, View> for StoreHead {
    ghost then = { λ st me n me'. (me'.1 ≡ me.1) × StoresHead me.0 me'.0 };
}

pub struct StoreHeadBefore;

impl Play<u64, View> for StoreHeadBefore {
    ghost then = { λ st me n me'. (me'.1 ≡ me.1) × StoresHeadBefore me.0 me'.0 };
}
