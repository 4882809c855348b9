//! A ring of one owner with up to two open claims, on which calls are made.
ghost use Rattle.std.specs.Prelude.{◌≡◌, ◌≢◌, IfOk, IfSome, Some};
ghost use Rattle.ring_words.specs.Open.{ClaimAt, IsOpen};

use crate::calls::Plays;
use crate::play::call::{Call, Said};
use crate::play::shared::Shows;
use crate::script::Script;
use ring_words::{ClaimFault, Positions, ReadEnd, SoloClaim, SoloRing};
use std::alloc::Global;
use std::marker::Model;
use std::{mem, process};

/// A ring with its open claims, and the handler of its reads.
pub struct SoloBench<'a> {
    ring: SoloRing,
    last: Option<SoloClaim>,
    before: Option<SoloClaim>,
    script: Script<'a>,
}

impl<'a> Model for SoloBench<'a> {
    ghost use Rattle.std.specs.Prelude.{IfSome};
    ghost use Rattle.ring_words.specs.Open.{IsOpen};

    ghost Value = { Unit {0} };

    ghost view = { λ b. tt };

    ghost invariant = { λ b. IfSome b.last (IsOpen b.ring) × IfSome b.before (IsOpen b.ring) };
}

fn read(end: ReadEnd) -> Said {
    Said::Read(end.messages, end.bytes, end.stopped)
}

fn at(positions: Positions) -> Said {
    Said::At(positions.head, positions.tail)
}

fn written(written: Result<(), ClaimFault>) -> Said {
    match written {
        Ok(()) => Said::Done,
        Err(fault) => Said::Refused(fault),
    }
}

/// What the positions around a read and its end show.
fn standing(ring: &mut SoloRing, limit: u32, script: &mut Script<'_>) -> Said
    ensures claims { (t : ClaimAt) → IsOpen ring.old t → IsOpen ring.new t }
{
    let before = ring.positions();
    let end = ring.read(limit, script);
    Said::Stands(end.standing(before, ring.positions()))
}

/// Makes a call that changes nothing.
fn asked(ring: &SoloRing, call: Call<'_>, script: &Script<'_>) -> Said {
    match call {
        Call::Word(index) => Said::Word(ring.word(index)),
        Call::Positions => at(ring.positions()),
        Call::Used => Said::Number(ring.positions().used()),
        Call::Capacity => Said::Number(u64::from(ring.capacity())),
        Call::MaxMessage => Said::Number(u64::from(ring.max_message())),
        Call::Shown => Said::Number(script.shown()),
        _ => Said::Missing,
    }
}

/// Makes a call that settles no claim.
fn made(ring: &mut SoloRing, call: Call<'_>, script: &mut Script<'_>) -> Said
    ensures claims { (t : ClaimAt) → IsOpen ring.old t → IsOpen ring.new t }
{
    match call {
        Call::Write(type_id, body) => written(ring.write(type_id, body)),
        Call::Read(limit) => read(ring.read(limit, script)),
        Call::ControlledRead(limit) => read(ring.controlled_read(limit, script)),
        Call::ReadAcross(limit) => read(ring.read_across(limit, script)),
        Call::Standing(limit) => standing(ring, limit, script),
        Call::Drain => Said::Number(u64::from(ring.drain())),
        _ => asked(ring, call, script),
    }
}

fn claimed(ring: &mut SoloRing, type_id: i32, len: usize) -> Result<SoloClaim, ClaimFault>
    ensures is_open { IfOk result (IsOpen ring.new) }
    ensures claims { (t : ClaimAt) → IsOpen ring.old t → IsOpen ring.new t }
{
    ring.claim(type_id, len)
}

/// Commits or aborts a claim.
fn settled(ring: &mut SoloRing, claim: SoloClaim, commits: bool)
    requires { IsOpen ring.old claim }
    ensures { (t : ClaimAt) → IsOpen ring.old t → t.place ≢ claim.place → IsOpen ring.new t }
{
    if commits {
        ring.commit(claim);
    } else {
        ring.abort(claim);
    }
}

fn opened(claim: &SoloClaim) -> Said {
    Said::made(claim.place(), claim.index(), claim.len(), claim.is_empty())
}

/// Leaves a claim open, if there is one.
fn leave(claim: Option<SoloClaim>) {
    match claim {
        Some(claim) => claim.leak(),
        None => {}
    }
}

/// A claim that is not at this place.
fn apart(claim: Option<SoloClaim>, place: u64) -> Option<SoloClaim>
    ensures { IfSome result (λ t. (claim ≡ Some t) × (t.place ≢ place)) }
{
    match claim {
        Some(claim) if claim.place() != place => Some(claim),
        other => {
            leave(other);
            None
        }
    }
}

impl<'a> Drop for SoloBench<'a> {
    fn drop(self) {
        let SoloBench {
            ring: _,
            last,
            before,
            script: _,
        } = self;
        leave(last);
        leave(before);
    }
}

impl<'a> SoloBench<'a> {
    /// A ring of 128 bytes that begins at this position.
    pub fn new(rt: &impl process::Abort, alloc: Global, start: u64, script: Script<'a>) -> Self {
        let made = if start == 0 {
            SoloRing::new(alloc, 128)
        } else {
            SoloRing::new_at(alloc, 128, start)
        };
        SoloBench {
            ring: made.expect(rt, "a ring"),
            last: None,
            before: None,
            script,
        }
    }

    /// Claims, if fewer than two claims are open.
    fn claim(&mut self, type_id: i32, len: usize) -> Said {
        if self.before.is_some() {
            return Said::Missing;
        }
        match claimed(&mut self.ring, type_id, len) {
            Ok(claim) => {
                let said = opened(&claim);
                let before = self.last.replace(claim);
                leave(mem::replace(&mut self.before, before));
                said
            }
            Err(fault) => Said::Refused(fault),
        }
    }

    fn turn(&mut self) -> Said {
        mem::swap(&mut self.last, &mut self.before);
        Said::Done
    }

    fn put(&mut self, offset: usize, bytes: &[u8]) -> Said {
        match self.last.take() {
            Some(mut claim) => {
                let put = self.ring.put(&mut claim, offset, bytes);
                leave(self.last.replace(claim));
                if put.is_ok() {
                    Said::Done
                } else {
                    Said::Outside
                }
            }
            None => Said::Missing,
        }
    }

    fn settle(&mut self, commits: bool) -> Said {
        match self.last.take() {
            Some(claim) => {
                let before = apart(self.before.take(), claim.place());
                settled(&mut self.ring, claim, commits);
                leave(mem::replace(&mut self.last, before));
                Said::Done
            }
            None => Said::Missing,
        }
    }

    /// Whether the handler was shown all messages, and no others.
    pub fn is_done(&self) -> bool {
        self.script.is_done()
    }

    /// The ring, with its open claims left open.
    pub fn close(self) -> SoloRing {
        let SoloBench {
            ring,
            last,
            before,
            script: _,
        } = self;
        leave(last);
        leave(before);
        ring
    }
}

impl<'a> Plays<Call<'a>, Said> for SoloBench<'_> {
    fn call(&mut self, call: Call<'a>) -> Said {
        match call {
            Call::Claim(type_id, len) => self.claim(type_id, len),
            Call::Turn => self.turn(),
            Call::Put(offset, bytes) => self.put(offset, bytes),
            Call::Commit => self.settle(true),
            Call::Abort => self.settle(false),
            _ => made(&mut self.ring, call, &mut self.script),
        }
    }
}
