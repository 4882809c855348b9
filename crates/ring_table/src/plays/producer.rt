//! What the steps of a producer say.
ghost use Rattle.std.specs.Prelude.{◌≡◌, ◌≢◌, ℕ, ◌+◌, ◌<◌, ◌^◌, FitsSigned};
ghost use Rattle.std.specs.Int.{w32};
ghost use Rattle.ring_layout.specs.Headers.{open_header};
ghost use mathlib.Core.Option.{some};
ghost use Rattle.ring_layout.specs.declared.message.ClaimState.TheVariants.{Aborted, Committed};
ghost use Rattle.ring_table.specs.{Staged.AreRising, Views.Logs, Views.Wanted, Views.logged};
ghost use Rattle.ring_table.specs.ProducerSteps.{LoadsHead, LoadsOwn, LoadsTail, MovesOwnTail, MovesTail};
ghost use Rattle.ring_table.specs.ProducerSteps.{StoresBody, StoresClaimed, StoresPadding, StoresSettled};

use crate::view::View;
use atomic_table::Play;

pub struct LoadTail;

impl Play<u64, View> for LoadTail {
    ghost then = { λ st me n me'. (me'.1 ≡ me.1) × LoadsTail me.0.capacity me.0 n me'.0 × Logs st.word n me.0 me'.0 };
}

pub struct LoadHead;

impl Play<u64, View> for LoadHead {
    ghost then = { λ st me n me'. (me'.1 ≡ me.1) × LoadsHead me.0.capacity me.0 n me'.0 × Logs st.word n me.0 me'.0 };
}

pub struct MoveTail;

impl Play<u64, View> for MoveTail {
    ghost then = { λ st me n me'. (me'.1 ≡ me.1)
        × ((wanted : Wanted) → FitsSigned w32 wanted.type_id → 8 + wanted.len < 2 ^ 31
        → st.said ≡ some (open_header wanted.type_id wanted.len)
        → MovesTail me.0.capacity st.first st.second wanted me.0 n me'.0)
        × (n ≢ st.first → Logs st.word n me.0 me'.0) };
}

pub struct MoveOwnTail;

impl Play<u64, View> for MoveOwnTail {
    ghost then = { λ st me n me'. (me'.1 ≡ me.1) × MovesOwnTail me.0.capacity st.first me.0 me'.0 };
}

pub struct StorePadding;

impl Play<u64, View> for StorePadding {
    ghost then = { λ st me n me'. (me'.1 ≡ me.1) × StoresPadding st.word me.0 me'.0 × AreRising me.0.producer.claims };
}

pub struct StoreClaimed;

impl Play<u64, View> for StoreClaimed {
    ghost then = { λ st me n me'. (me'.1 ≡ me.1) × StoresClaimed st.word st.first me.0 me'.0
        × AreRising me.0.producer.claims };
}

pub struct StoreCommitted;

impl Play<u64, View> for StoreCommitted {
    ghost then = { λ st me n me'. (me'.1 ≡ me.1) × StoresSettled Committed st.word me.0 me'.0
        × AreRising me.0.producer.claims };
}

pub struct StoreAborted;

impl Play<u64, View> for StoreAborted {
    ghost then = { λ st me n me'. (me'.1 ≡ me.1) × StoresSettled Aborted st.word me.0 me'.0
        × AreRising me.0.producer.claims };
}

pub struct StoreBody;

impl Play<u64, View> for StoreBody {
    ghost then = { λ st me n me'. (me'.1 ≡ me.1) × StoresBody st.word st.first me.0 me'.0
        × AreRising me.0.producer.claims };
}

pub struct LoadOwn;

impl Play<u64, View> for LoadOwn {
    ghost then = { λ st me n me'. (me'.1 ≡ me.1) × (me'.0 ≡ logged st.word n me.0)
        × LoadsOwn st.word me.0 n × AreRising me.0.producer.claims };
}
