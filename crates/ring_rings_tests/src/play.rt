//! Plays: calls on rings of each form, with what each call returns and what the calls leave.
pub mod across;
pub mod call;
pub mod claims;
pub mod reading;
pub mod shared;
pub mod solo;
pub mod team;
pub mod writing;

use crate::calls::Plays;
use crate::compare::{same, same_at};
use crate::script::{Message, Script};
use call::{Call, Said};
use ring_rings::{Action, Bodies, InSlots, InWords, ManyToOne, OneToOne, Positions};
use ring_words::SoloRing;
use shared::SharedBench;
use solo::SoloBench;
use std::alloc::Global;
use std::process::Abort;
use team::Team;

/// Calls on a ring of 128 bytes, whose handler answers with these actions, and then with `Continue`.
#[derive(Clone, Copy)]
pub struct Play<'a> {
    pub start: u64,
    pub actions: &'a [Action],
    pub calls: &'a [(Call<'a>, Said)],
    /// All messages that are shown.
    pub shown: &'a [Message<'a>],
    /// The handler needs the bytes of messages up to this length. A ring of one owner asks for no other handler.
    pub longest: usize,
    /// Head and tail at the end.
    pub ends: (u64, u64),
    /// Words of the ring at the end, by index.
    pub words: &'a [(usize, Option<u64>)],
}

/// No calls on a ring that begins at 0.
pub const PLAY: Play<'static> = Play {
    start: 0,
    actions: &[],
    calls: &[],
    shown: &[],
    longest: usize::MAX,
    ends: (0, 0),
    words: &[],
};

/// Tests what a play leaves.
fn leaves(rt: &impl Abort, rest: &SoloRing, play: &Play<'_>) {
    let (head, tail) = play.ends;
    same(rt, rest.positions(), Positions { head, tail });
    for (index, word) in play.words {
        same_at(rt, *index, rest.word(*index), *word);
    }
}

fn plays_on<K: Team, B: Bodies>(rt: &impl Abort, alloc: Global, play: &Play<'_>) {
    let script = Script::up_to(play.actions, play.shown, play.longest);
    let mut bench = SharedBench::<K, B, Script<'_>>::new(rt, alloc, 128, play.start, script);
    bench.plays(rt, play.calls);
    let (rest, script) = bench.close();
    assert!(rt; script.is_done());
    leaves(rt, &rest.expect(rt, "a closed ring"), play);
}

/// Makes a play on a ring of each kind, with bodies in words and with bodies in slots.
pub fn plays(rt: &impl Abort, alloc: Global, play: &Play<'_>) {
    plays_on::<OneToOne, InWords>(rt, alloc, play);
    plays_on::<OneToOne, InSlots>(rt, alloc, play);
    plays_on::<ManyToOne, InWords>(rt, alloc, play);
    plays_on::<ManyToOne, InSlots>(rt, alloc, play);
}

/// Makes a play on a ring of many producers, with bodies in words and with bodies in slots.
pub fn plays_shared(rt: &impl Abort, alloc: Global, play: &Play<'_>) {
    plays_on::<ManyToOne, InWords>(rt, alloc, play);
    plays_on::<ManyToOne, InSlots>(rt, alloc, play);
}

/// Makes a play on a ring of one owner.
pub fn plays_alone(rt: &impl Abort, alloc: Global, play: &Play<'_>) {
    let script = Script::new(play.actions, play.shown);
    let mut bench = SoloBench::new(rt, alloc, play.start, script);
    bench.plays(rt, play.calls);
    assert!(rt; bench.is_done());
    leaves(rt, &bench.close(), play);
}
