//! `ring_words`: a ring of one owner, and what the calls of all rings share.

use std::alloc::Global;

/// Counts the messages that it is shown, and returns the same action for each.
#[derive(Drop)]
pub struct Counting {
    pub action: ring_words::Action,
    pub shown: u32,
}

impl ring_words::Handler for Counting {
    ghost step = { λ s m t action. Unit {0} };

    fn on_message(&mut self, _type_id: i32, _body: &[u8]) -> ring_words::Action {
        self.shown = self.shown.saturating_add(1);
        self.action
    }
}

/// A handler that returns this action.
pub fn returning(action: ring_words::Action) -> Counting {
    Counting { action, shown: 0 }
}

/// What calls refuse.
fn refusals(ring: &mut ring_words::SoloRing) -> [i32; 2] {
    let bad_type: ring_words::ClaimFault = match ring.write(0, b"x") {
        Ok(()) => return [0; 2],
        Err(fault) => fault,
    };
    let too_long = match ring.write(1, &[0; 33]) {
        Ok(()) => 0,
        Err(fault) => fault.code(),
    };
    [bad_type.code(), too_long]
}

/// What came of a ring of one owner.
#[derive(Debug, Drop)]
pub struct Came {
    claimed: [u64; 4],
    counts: [u32; 3],
    stopped: ring_words::Stop,
    bytes: u64,
    positions: ring_words::Positions,
    word: Option<u64>,
    refusals: [i32; 2],
}

/// Two messages are written and one is aborted; one is left by the handler, and both are read.
pub fn run(alloc: Global) -> anyhow::Result<Came> {
    let refused: Option<ring_words::MakeFault> = ring_words::SoloRing::new(alloc, 100).err();
    let mut ring = ring_words::SoloRing::new_at(alloc, 256, 512)?;
    ring.write(1, b"first")?;
    let mut claim: ring_words::SoloClaim = ring.claim(2, 6)?;
    let claimed = [
        claim.place(),
        u64::from(claim.index()),
        claim.len() as u64,
        u64::from(refused.is_some()),
    ];
    let range: Result<(), ring_words::PutRange> = ring.put(&mut claim, 0, b"second");
    // A claim is always settled, whatever else fails.
    ring.commit(claim);
    range?;
    let aborted = ring.claim(3, 1)?;
    ring.abort(aborted);
    let mut leaving = returning(ring_words::Action::Abort);
    let left: ring_words::ReadEnd = ring.controlled_read(9, &mut leaving);
    let mut taking = returning(ring_words::Action::Continue);
    let end = ring.read(9, &mut taking);
    let refusals = refusals(&mut ring);
    Ok(Came {
        claimed,
        counts: [left.messages, end.messages, ring.capacity()],
        stopped: left.stopped,
        bytes: end.bytes,
        positions: ring.positions(),
        word: ring.word(0),
        refusals,
    })
}
