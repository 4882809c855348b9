//! A manager together with its values.
ghost use Rattle.std.specs.Prelude.{◌^◌, ◌≤◌};
ghost use Rattle.ring_counters.specs.Manager.{IsManagerOf};

use crate::calls::Plays;
use crate::compare::same;
use ring_counters::{
    AllocateRefused, BadId, BadOwner, CounterInfo, CounterValues, CountersManager, IdFault,
    MakeFault, NoShares, OutOfMemory,
};
use std::alloc::Global;
use std::process::Abort;

/// A call on a manager or its values. Counters are of type 5; a moment is a number of ms.
#[derive(Clone, Copy)]
pub enum Call<'a> {
    /// At a moment, with neither key nor label.
    Allocate(u64),
    /// With a key, a label and the registration id 9.
    AllocateWith(&'a [u8], &'a [u8]),
    AllocateOwned(u64),
    Set(u32, i64),
    Add(u32, i64),
    ProposeMax(u32, i64),
    /// A moment and an id.
    Free(u32, u32),
    /// A moment and an owner.
    CloseOwner(u32, u64),
    Count,
    Find(i32, u64),
    TypeId(u32),
    Registration(u32),
    Value(u32),
    State(u32),
    Owner(u32),
    Deadline(u32),
    /// By a reader that is made for it and goes back.
    Read(u32),
    /// A word of the metadata record, and one of the value record.
    Words(u32, usize, usize),
}

/// What a call returns.
#[derive(Clone, Copy, Debug, PartialEq, Eq)]
pub enum Said {
    Done,
    Id(u32),
    None,
    Signed(i64),
    Number(u64),
    Raised(bool),
    Words(u64, u64),
    Bad(IdFault),
    Refused(AllocateRefused),
    NoOwner,
    NoReader,
}

fn allocated(made: Result<u32, AllocateRefused>) -> Said {
    match made {
        Ok(id) => Said::Id(id),
        Err(fault) => Said::Refused(fault),
    }
}

fn done(done: Result<(), IdFault>) -> Said {
    match done {
        Ok(()) => Said::Done,
        Err(fault) => Said::Bad(fault),
    }
}

fn signed(found: Result<i64, IdFault>) -> Said {
    match found {
        Ok(value) => Said::Signed(value),
        Err(fault) => Said::Bad(fault),
    }
}

fn number(found: Result<u64, IdFault>) -> Said {
    match found {
        Ok(value) => Said::Number(value),
        Err(fault) => Said::Bad(fault),
    }
}

/// Tests whether bytes begin with these, and zeros follow.
pub fn begins(bytes: &[u8], wanted: &[u8]) -> bool {
    bytes.starts_with(wanted) && bytes.iter().skip(wanted.len()).all(|byte| *byte == 0)
}

/// A manager with its values.
#[derive(Drop)]
pub struct Desk {
    pub values: CounterValues,
    pub counters: CountersManager,
    ghost own: { IsManagerOf values counters },
}

impl Desk {
    pub fn new(alloc: Global, count: u32, reuse_ms: u32) -> Result<Desk, MakeFault> {
        let (values, counters) = CountersManager::new(alloc, count, reuse_ms)?;
        Ok(Desk { values, counters })
    }

    /// Allocates a counter of type 5 without key and label.
    pub fn allocate(&mut self, now: u64) -> Result<u32, AllocateRefused> {
        self.counters.allocate(&self.values, now, 5, &[], &[], 0)
    }

    /// Allocates a counter of type 5 with the registration id 9.
    pub fn allocate_with(&mut self, key: &[u8], label: &[u8]) -> Result<u32, AllocateRefused> {
        self.counters.allocate(&self.values, 0, 5, key, label, 9)
    }

    pub fn allocate_owned(&mut self, owner: u64) -> Result<u32, AllocateRefused> {
        self.counters
            .allocate_owned(&self.values, 0, 5, &[], &[], 0, owner)
    }

    pub fn set(&mut self, id: u32, value: i64) -> Result<(), IdFault> {
        self.counters.set(&self.values, id, value)
    }

    pub fn free(&mut self, now: u64, id: u32) -> Result<(), IdFault>
        requires { now ≤ 2 ^ 62 }
    {
        self.counters.free(now, id)
    }

    pub fn live(&self, alloc: Global) -> Result<Vec<CounterInfo>, OutOfMemory> {
        self.counters.live(alloc)
    }

    fn raised(&mut self, id: u32, value: i64) -> Said {
        match self.counters.propose_max(&self.values, id, value) {
            Ok(raised) => Said::Raised(raised),
            Err(fault) => Said::Bad(fault),
        }
    }

    fn closed(&mut self, now: u64, owner: u64) -> Said
        requires { now ≤ 2 ^ 62 }
    {
        match self.counters.close_owner(now, owner) {
            Ok(freed) => Said::Number(u64::from(freed)),
            Err(BadOwner) => Said::NoOwner,
        }
    }

    fn found(&self, type_id: i32, registration: u64) -> Said {
        match self.counters.find(type_id, registration) {
            Some(id) => Said::Id(id),
            None => Said::None,
        }
    }

    fn words(&self, id: u32, metadata: usize, value: usize) -> Said {
        match self.counters.state(id) {
            Ok(_) if metadata < 64 && value < 16 => Said::Words(
                self.counters.metadata_word(id, metadata),
                self.counters.value_word(id, value),
            ),
            _ => Said::None,
        }
    }

    /// What a reader that is made, loads one value and goes back finds.
    fn read(&mut self, id: u32) -> Said {
        match self.counters.reader(&self.values) {
            Ok(mut reader) => {
                let found = self.values.load(&mut reader, id);
                self.counters.join_reader(&self.values, reader);
                match found {
                    Ok(value) => Said::Signed(value),
                    Err(BadId) => Said::Bad(IdFault::BadId),
                }
            }
            Err(NoShares) => Said::NoReader,
        }
    }

    /// Makes a call that looks at counters.
    fn looked(&self, call: Call<'_>) -> Said {
        match call {
            Call::Find(type_id, registration) => self.found(type_id, registration),
            Call::TypeId(id) => signed(self.counters.type_id(id).map(i64::from)),
            Call::Registration(id) => number(self.counters.registration(id)),
            Call::Value(id) => signed(self.counters.value(id)),
            Call::State(id) => signed(self.counters.state(id).map(i64::from)),
            Call::Owner(id) => number(self.counters.owner(id)),
            Call::Deadline(id) => number(self.counters.deadline(id)),
            Call::Words(id, metadata, value) => self.words(id, metadata, value),
            _ => Said::Number(u64::from(self.counters.count())),
        }
    }
}

impl<'a> Plays<Call<'a>, Said> for Desk {
    fn call(&mut self, call: Call<'a>) -> Said {
        match call {
            Call::Allocate(now) => allocated(self.allocate(now)),
            Call::AllocateWith(key, label) => allocated(self.allocate_with(key, label)),
            Call::AllocateOwned(owner) => allocated(self.allocate_owned(owner)),
            Call::Set(id, value) => done(self.set(id, value)),
            Call::Add(id, delta) => signed(self.counters.add(&self.values, id, delta)),
            Call::ProposeMax(id, value) => self.raised(id, value),
            Call::Free(now, id) => done(self.free(u64::from(now), id)),
            Call::CloseOwner(now, owner) => self.closed(u64::from(now), owner),
            Call::Read(id) => self.read(id),
            _ => self.looked(call),
        }
    }
}

/// Plays rows on a manager of this many counters, whose ids are given again after this many ms.
pub fn plays(rt: &impl Abort, alloc: Global, count: u32, reuse_ms: u32, rows: &[(Call<'_>, Said)]) {
    let mut desk = Desk::new(alloc, count, reuse_ms).expect(rt, "a manager");
    desk.plays(rt, rows);
    same(rt, desk.counters.value_shares(), 65536);
}
