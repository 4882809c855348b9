//! A producer, which claims, fills and settles, and notes each call.
ghost use Rattle.std.specs.Prelude.{◌≡◌, ◌≢◌, IfOk, MatchOption};
ghost use Rattle.ring_rings.specs.Seats.{IsOpenClaimOf, IsProducerOf, KeepsOthers, MayClaim};

use crate::fault::RecordFault;
use crate::log::{Fate, Noted, sum_of};
use crate::plan::Plan;
use crate::random::Random;
use ring_rings::{Bodies, Claim, ClaimFault, Kind, Producer, Ring, TryFault};
use std::alloc::{AllocError, Global};
use std::sync::Wait;
use std::thread::yield_now;

/// The most refusals that are noted before a claim.
const NOTED: u32 = 3;

/// The number of type ids.
const TYPES: u32 = 9;

/// The bytes of a position.
const WORD: usize = 8;

/// A claim that is not settled.
struct OpenClaim {
    claim: Claim,
    /// The checksum of the claim's body.
    sum: u64,
    /// The index of the claim's line.
    line: usize,
}

/// What a producer notes, and what it writes.
#[derive(Drop)]
pub struct Notes {
    /// The number of the producer.
    pub id: u32,
    pub log: Vec<Noted>,
    /// Lines are missing, since memory ran out.
    pub is_short: bool,
    /// The bytes of the longest message.
    body: Vec<u8>,
    random: Random,
}

impl Notes {
    /// The notes of a producer that has made no call.
    pub fn new(alloc: Global, plan: &Plan, id: u32) -> Result<Notes, AllocError> {
        Ok(Notes {
            id,
            log: Vec::new(alloc),
            is_short: false,
            body: vec![in alloc; 0u8; plan.longest() as usize]?,
            random: Random::new(plan.seed, u64::from(id)),
        })
    }

    /// Notes a line.
    fn note(&mut self, line: Noted) {
        if self.log.push(line).is_err() {
            self.is_short = true;
        }
    }

    /// Notes what became of the claim of a line.
    fn note_fate(&mut self, line: usize, settled: Fate) {
        if let Some(Noted::Claimed { fate, .. }) = self.log.get_mut(line) {
            *fate = settled;
        }
    }

    /// Makes the next body. If it is long enough, it begins with the position of its claim.
    fn fill(&mut self, place: u64) {
        for byte in self.body.as_mut_slice() {
            let [low, ..] = self.random.draw().to_le_bytes();
            *byte = low;
        }
        if let Some(first) = self.body.as_mut_slice().first_chunk_mut::<WORD>() {
            *first = place.to_le_bytes();
        }
    }
}

/// Puts a body into a claim, and notes the claim.
fn filled<K: Kind, B: Bodies>(
    ring: &Ring<K, B>,
    producer: &mut Producer,
    mut claim: Claim,
    type_id: i32,
    notes: &mut Notes,
) -> OpenClaim
    requires producer { IsProducerOf ring.now producer.old }
    requires sole { MayClaim K.many producer.old }
    requires claim { IsOpenClaimOf ring.now producer.old claim }
    ensures producer { IsProducerOf ring.now producer.new }
    ensures sole { MayClaim K.many producer.new }
    ensures same { result.claim ≡ claim }
    ensures claim { IsOpenClaimOf ring.now producer.new claim }
    ensures others { KeepsOthers ring.now claim.place producer.old producer.new }
{
    let place = claim.place();
    let length = claim.len();
    notes.fill(place);
    let line = notes.log.len();
    let bytes = notes.body.get(..length).unwrap_or(&[]);
    let sum = sum_of(bytes);
    let _ = ring.put(producer, &mut claim, 0, bytes);
    notes.note(Noted::Claimed {
        place,
        type_id,
        length,
        fate: Fate::Open,
    });
    OpenClaim { claim, sum, line }
}

/// Commits a claim or aborts it.
fn settle<K: Kind, B: Bodies>(
    ring: &Ring<K, B>,
    producer: &mut Producer,
    open: OpenClaim,
    notes: &mut Notes,
)
    requires producer { IsProducerOf ring.now producer.old }
    requires sole { MayClaim K.many producer.old }
    requires claim { IsOpenClaimOf ring.now producer.old open.claim }
    ensures producer { IsProducerOf ring.now producer.new }
    ensures sole { MayClaim K.many producer.new }
    ensures others { KeepsOthers ring.now open.claim.place producer.old producer.new }
{
    let OpenClaim { claim, sum, line } = open;
    if notes.random.below(4) == 0 {
        notes.note_fate(line, Fate::Aborted);
        ring.abort(producer, claim);
    } else {
        notes.note_fate(line, Fate::Committed(sum));
        ring.commit(producer, claim);
    }
}

/// Leaves a claim open for good.
fn leave(open: OpenClaim) {
    let OpenClaim {
        claim,
        sum: _sum,
        line: _line,
    } = open;
    claim.leak();
}

/// Claims room for a message, and notes the first refusals. While there is no room, settles the claim that is held.
fn claim_room<K: Kind, B: Bodies, R: Wait>(
    rt: &R,
    ring: &Ring<K, B>,
    producer: &mut Producer,
    mut held: Option<OpenClaim>,
    notes: &mut Notes,
) -> Result<(OpenClaim, Option<OpenClaim>), RecordFault>
    requires producer { IsProducerOf ring.now producer.old }
    requires sole { MayClaim K.many producer.old }
    requires held { MatchOption held (Unit {0}) (λ it. IsOpenClaimOf ring.now producer.old it.claim) }
    ensures producer { IsProducerOf ring.now producer.new }
    ensures sole { MayClaim K.many producer.new }
    ensures open { IfOk result (λ claims. IsOpenClaimOf ring.now producer.new claims.0.claim) }
    ensures held { IfOk result (λ claims. MatchOption claims.1 (Unit {0}) (λ it.
        IsOpenClaimOf ring.now producer.new it.claim × (it.claim.place ≢ claims.0.claim.place))) }
{
    let length = (notes.random.draw() % (notes.body.len() as u64 + 1)) as usize;
    let type_id = notes.random.below(TYPES) as i32 + 1;
    let mut noted = 0;
    for _ in rt.forever() {
        match ring.try_claim(producer, type_id, length) {
            Ok(claim) => return Ok((filled(ring, producer, claim, type_id, notes), held)),
            Err(TryFault::Contended { .. }) => {}
            Err(TryFault::Refused(ClaimFault::InsufficientCapacity { .. })) => {
                if noted < NOTED {
                    notes.note(Noted::Full { length });
                    noted += 1;
                }
                if let Some(open) = held {
                    settle(ring, producer, open, notes);
                }
                held = None;
            }
            Err(TryFault::Refused(_)) => break,
        }
        yield_now();
    }
    if let Some(open) = held {
        leave(open);
    }
    Err(RecordFault::Refused)
}

/// Makes a claim, and settles it, or the claim that is held, or none of them. Returns the claim that is then held.
fn take_turn<K: Kind, B: Bodies, R: Wait>(
    rt: &R,
    ring: &Ring<K, B>,
    producer: &mut Producer,
    held: Option<OpenClaim>,
    notes: &mut Notes,
) -> Result<Option<OpenClaim>, RecordFault>
    requires producer { IsProducerOf ring.now producer.old }
    requires sole { MayClaim K.many producer.old }
    requires held { MatchOption held (Unit {0}) (λ it. IsOpenClaimOf ring.now producer.old it.claim) }
    ensures producer { IsProducerOf ring.now producer.new }
    ensures sole { MayClaim K.many producer.new }
    ensures held { IfOk result (λ held. MatchOption held (Unit {0}) (λ it.
        IsOpenClaimOf ring.now producer.new it.claim)) }
{
    let (open, held) = claim_room(rt, ring, producer, held, notes)?;
    let is_first = notes.random.below(2) == 0;
    match held {
        None => if is_first {
            settle(ring, producer, open, notes);
            Ok(None)
        } else {
            Ok(Some(open))
        },
        Some(old) => if is_first {
            settle(ring, producer, open, notes);
            Ok(Some(old))
        } else {
            settle(ring, producer, old, notes);
            Ok(Some(open))
        },
    }
}

/// Makes this many claims, and settles all of them.
pub fn produce<K: Kind, B: Bodies, R: Wait>(
    rt: &R,
    ring: &Ring<K, B>,
    producer: &mut Producer,
    notes: &mut Notes,
    claims: u32,
) -> Result<(), RecordFault>
    requires producer { IsProducerOf ring.now producer.old }
    requires sole { MayClaim K.many producer.old }
    ensures producer { IsProducerOf ring.now producer.new }
    ensures sole { MayClaim K.many producer.new }
{
    let mut held = None;
    for _ in 0..claims {
        held = take_turn(rt, ring, producer, held, notes)?;
    }
    if let Some(open) = held {
        settle(ring, producer, open, notes);
    }
    Ok(())
}

/// Makes three claims, of which the first one stays open.
pub fn leave_one_open<K: Kind, B: Bodies, R: Wait>(
    rt: &R,
    ring: &Ring<K, B>,
    producer: &mut Producer,
    notes: &mut Notes,
) -> Result<(), RecordFault>
    requires producer { IsProducerOf ring.now producer.old }
    requires sole { MayClaim K.many producer.old }
    ensures producer { IsProducerOf ring.now producer.new }
{
    let (first, none) = claim_room(rt, ring, producer, None, notes)?;
    leave(first);
    if let Some(held) = none {
        leave(held);
    }
    produce(rt, ring, producer, notes, 2)
}
