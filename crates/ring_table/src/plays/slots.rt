//! What the steps on slots say.
ghost use Rattle.std.specs.Prelude.{◌≡◌};
ghost use Rattle.ring_table.specs.Staged.{AreRising};
ghost use Rattle.ring_layout.specs.declared.message.ClaimState.TheVariants.{Committed, Open};
ghost use Rattle.ring_table.specs.Marks.{LoadsInRun, LoadsMark, SplitsAtLast, SplitsAtScan};
ghost use Rattle.ring_table.specs.{Runs.StoresRun, SlotSteps.ReturnsSlots, SlotSteps.StoresRecord, SlotSteps.TakesBody};
ghost use Rattle.ring_table.specs.SlotSteps.{GivesBody, LendsBody, ReservesAt, ReservesBody, ReturnsBody};

use crate::view::View;
use atomic_table::Play;

pub struct ReserveAt;

impl Play<u64, View> for ReserveAt {
    ghost then = { λ st me n me'. ReservesAt st.word me me' × AreRising me.0.producer.claims };
}

pub struct ReserveBody;

impl Play<u64, View> for ReserveBody {
    ghost then = { λ st me n me'. ReservesBody me me' × AreRising me.0.producer.claims };
}

pub struct OpenRecord;

impl Play<u64, View> for OpenRecord {
    ghost then = { λ st me n me'. StoresRecord Open me me' × AreRising me.0.producer.claims };
}

pub struct CommitRecord;

impl Play<u64, View> for CommitRecord {
    ghost then = { λ st me n me'. StoresRecord Committed me me' × AreRising me.0.producer.claims };
}

pub struct CommitRun;

impl Play<u64, View> for CommitRun {
    ghost then = { λ st me n me'. StoresRun me me' × AreRising me.0.producer.claims };
}

pub struct TakeBody;

impl Play<u64, View> for TakeBody {
    ghost then = { λ st me n me'. TakesBody st.word me me' × AreRising me.0.producer.claims };
}

pub struct GiveBody;

impl Play<u64, View> for GiveBody {
    ghost then = { λ st me n me'. GivesBody me me' × AreRising me.0.producer.claims };
}

pub struct LendBody;

impl Play<u64, View> for LendBody {
    ghost then = { λ st me n me'. LendsBody st.word me me' };
}

pub struct ReturnBody;

impl Play<u64, View> for ReturnBody {
    ghost then = { λ st me n me'. ReturnsBody me me' };
}

pub struct ReturnSlots;

impl Play<u64, View> for ReturnSlots {
    ghost then = { λ st me n me'. ReturnsSlots me me' };
}

pub struct LoadFirstMark;

impl Play<u64, View> for LoadFirstMark {
    ghost then = { λ st me n me'. LoadsMark me.0.capacity me.0.consumer.head me.0.consumer.taken me n me' };
}

pub struct LoadNextMark;

impl Play<u64, View> for LoadNextMark {
    ghost then = { λ st me n me'. LoadsMark me.0.capacity me.0.consumer.scan me.0.consumer.got me n me' };
}

pub struct LoadInRun;

impl Play<u64, View> for LoadInRun {
    ghost then = { λ st me n me'. LoadsInRun me.0.capacity me.0.consumer.scan me.0.consumer.got me me' };
}

pub struct SplitAtScan;

impl Play<u64, View> for SplitAtScan {
    ghost then = { λ st me n me'. (me'.1 ≡ me.1) × SplitsAtScan me.0 me'.0 };
}

pub struct SplitAtLast;

impl Play<u64, View> for SplitAtLast {
    ghost then = { λ st me n me'. (me'.1 ≡ me.1) × SplitsAtLast me.0 me'.0 };
}
