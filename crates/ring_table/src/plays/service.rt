//! What the steps on the head cache, the correlation counter and the heartbeat say.
ghost use Rattle.std.specs.Prelude.{◌≡◌};
ghost use Rattle.ring_table.specs.Views.{Logs, with_beat};
ghost use Rattle.ring_table.specs.ServiceSteps.{LoadsCache, DrawsId, LoadsHeartbeat};

use crate::view::View;
use atomic_table::Play;

pub struct LoadCache;

impl Play<u64, View> for LoadCache {
    ghost then = { λ st me n me'. (me'.1 ≡ me.1) × LoadsCache me.0.capacity me.0 n me'.0 × Logs st.word n me.0 me'.0 };
}

pub struct StoreCache;

impl Play<u64, View> for StoreCache {
    ghost then = { λ st me n me'. (me'.1 ≡ me.1) × (me'.0 ≡ me.0) };
}

pub struct DrawId;

impl Play<u64, View> for DrawId {
    ghost then = { λ st me n me'. (me'.1 ≡ me.1) × DrawsId me.0 n me'.0 };
}

pub struct LoadHeartbeat;

impl Play<u64, View> for LoadHeartbeat {
    ghost then = { λ st me n me'. (me'.1 ≡ me.1) × LoadsHeartbeat me.0.capacity me.0 n me'.0
        × Logs st.word n me.0 me'.0 };
}

pub struct StoreHeartbeat;

impl Play<u64, View> for StoreHeartbeat {
    ghost then = { λ st me n me'. (me'.1 ≡ me.1) × (me'.0 ≡ with_beat st.first me.0) };
}
