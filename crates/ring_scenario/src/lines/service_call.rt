//! The calls of the conductor's side that a line asks for. Commands are among them.
ghost use Rattle.ring_scenario.specs.{Forms.kinds_of, Forms.Refuses, Cutting.words_of};
ghost use Rattle.std.specs.Prelude.{◌∷◌, IfErr, IfOk, codes};

use super::Words;
use super::fault::LineFault;
use super::moment::Moment;
use super::name::Name;
use ring_protocol::Request;
use std::alloc::Global;

/// A call of the command ring, of the conductor, or of what the conductor serves, as a line asks for it.
#[derive(Drop)]
pub enum ServiceCall {
    /// `send TYPE HEX`
    Send { type_id: i32, body: Vec<u8> },
    /// A command, which gets a correlation id: `allocate TYPE KEYHEX LABELHEX`, `free ID`, `set ID VALUE`,
    /// `own OWNER TYPE KEYHEX LABELHEX` or `close OWNER`
    Request(Request<Vec<u8>>),
    /// `work NOW LIMIT`
    Work { now: Moment, limit: u32 },
    /// `listen`
    Listen,
    /// `hear K`
    Hear { number: usize },
    /// `counters`
    Counters,
    /// `owner ID`
    Owner { id: u32 },
    /// `watch`
    Watch,
    /// `peek K ID`
    Peek { number: usize, id: u32 },
    /// `unwatch K`
    Unwatch { number: usize },
}

impl ServiceCall {
    ghost use Rattle.ring_scenario.specs.Asking.{AsksToServe};

    pub(super) fn send(alloc: Global, words: &mut Words) -> Result<ServiceCall, LineFault>
        ensures call { IfOk result (λ call. AsksToServe call (codes "send" ∷ words_of words.old.rest.now)) }
        ensures bad { IfErr result (Refuses (kinds_of Name.Send) words.old) }
    {
        let type_id = words.i32()?;
        let body = words.bytes(alloc)?;
        words.finish()?;
        Ok(ServiceCall::Send { type_id, body })
    }

    pub(super) fn work(words: &mut Words) -> Result<ServiceCall, LineFault>
        ensures call { IfOk result (λ call. AsksToServe call (codes "work" ∷ words_of words.old.rest.now)) }
        ensures bad { IfErr result (Refuses (kinds_of Name.Work) words.old) }
    {
        let now = words.moment()?;
        let limit = words.u32()?;
        words.finish()?;
        Ok(ServiceCall::Work { now, limit })
    }

    pub(super) fn listen(words: &mut Words) -> Result<ServiceCall, LineFault>
        ensures call { IfOk result (λ call. AsksToServe call (codes "listen" ∷ words_of words.old.rest.now)) }
        ensures bad { IfErr result (Refuses (kinds_of Name.Listen) words.old) }
    {
        words.finish()?;
        Ok(ServiceCall::Listen)
    }

    pub(super) fn hear(words: &mut Words) -> Result<ServiceCall, LineFault>
        ensures call { IfOk result (λ call. AsksToServe call (codes "hear" ∷ words_of words.old.rest.now)) }
        ensures bad { IfErr result (Refuses (kinds_of Name.Hear) words.old) }
    {
        let number = words.usize()?;
        words.finish()?;
        Ok(ServiceCall::Hear { number })
    }

    pub(super) fn counters(words: &mut Words) -> Result<ServiceCall, LineFault>
        ensures call { IfOk result (λ call. AsksToServe call (codes "counters" ∷ words_of words.old.rest.now)) }
        ensures bad { IfErr result (Refuses (kinds_of Name.Counters) words.old) }
    {
        words.finish()?;
        Ok(ServiceCall::Counters)
    }

    pub(super) fn owner(words: &mut Words) -> Result<ServiceCall, LineFault>
        ensures call { IfOk result (λ call. AsksToServe call (codes "owner" ∷ words_of words.old.rest.now)) }
        ensures bad { IfErr result (Refuses (kinds_of Name.Owner) words.old) }
    {
        let id = words.u32()?;
        words.finish()?;
        Ok(ServiceCall::Owner { id })
    }

    pub(super) fn watch(words: &mut Words) -> Result<ServiceCall, LineFault>
        ensures call { IfOk result (λ call. AsksToServe call (codes "watch" ∷ words_of words.old.rest.now)) }
        ensures bad { IfErr result (Refuses (kinds_of Name.Watch) words.old) }
    {
        words.finish()?;
        Ok(ServiceCall::Watch)
    }

    pub(super) fn peek(words: &mut Words) -> Result<ServiceCall, LineFault>
        ensures call { IfOk result (λ call. AsksToServe call (codes "peek" ∷ words_of words.old.rest.now)) }
        ensures bad { IfErr result (Refuses (kinds_of Name.Peek) words.old) }
    {
        let number = words.usize()?;
        let id = words.u32()?;
        words.finish()?;
        Ok(ServiceCall::Peek { number, id })
    }

    pub(super) fn unwatch(words: &mut Words) -> Result<ServiceCall, LineFault>
        ensures call { IfOk result (λ call. AsksToServe call (codes "unwatch" ∷ words_of words.old.rest.now)) }
        ensures bad { IfErr result (Refuses (kinds_of Name.Unwatch) words.old) }
    {
        let number = words.usize()?;
        words.finish()?;
        Ok(ServiceCall::Unwatch { number })
    }

    pub(super) fn allocate(alloc: Global, words: &mut Words) -> Result<ServiceCall, LineFault>
        ensures call { IfOk result (λ call. AsksToServe call (codes "allocate" ∷ words_of words.old.rest.now)) }
        ensures bad { IfErr result (Refuses (kinds_of Name.Allocate) words.old) }
    {
        let type_id = words.i32()?;
        let key = words.bytes(alloc)?;
        let label = words.bytes(alloc)?;
        words.finish()?;
        Ok(ServiceCall::Request(Request::Allocate {
            type_id,
            key,
            label,
        }))
    }

    pub(super) fn free(words: &mut Words) -> Result<ServiceCall, LineFault>
        ensures call { IfOk result (λ call. AsksToServe call (codes "free" ∷ words_of words.old.rest.now)) }
        ensures bad { IfErr result (Refuses (kinds_of Name.Free) words.old) }
    {
        let id = words.u32()?;
        words.finish()?;
        Ok(ServiceCall::Request(Request::Free { id }))
    }

    pub(super) fn set(words: &mut Words) -> Result<ServiceCall, LineFault>
        ensures call { IfOk result (λ call. AsksToServe call (codes "set" ∷ words_of words.old.rest.now)) }
        ensures bad { IfErr result (Refuses (kinds_of Name.Set) words.old) }
    {
        let id = words.u32()?;
        let value = words.i64()?;
        words.finish()?;
        Ok(ServiceCall::Request(Request::Set { id, value }))
    }

    pub(super) fn own(alloc: Global, words: &mut Words) -> Result<ServiceCall, LineFault>
        ensures call { IfOk result (λ call. AsksToServe call (codes "own" ∷ words_of words.old.rest.now)) }
        ensures bad { IfErr result (Refuses (kinds_of Name.Own) words.old) }
    {
        let owner = words.u64()?;
        let type_id = words.i32()?;
        let key = words.bytes(alloc)?;
        let label = words.bytes(alloc)?;
        words.finish()?;
        Ok(ServiceCall::Request(Request::AllocateOwned {
            type_id,
            owner,
            key,
            label,
        }))
    }

    pub(super) fn close(words: &mut Words) -> Result<ServiceCall, LineFault>
        ensures call { IfOk result (λ call. AsksToServe call (codes "close" ∷ words_of words.old.rest.now)) }
        ensures bad { IfErr result (Refuses (kinds_of Name.Close) words.old) }
    {
        let owner = words.u64()?;
        words.finish()?;
        Ok(ServiceCall::Request(Request::Close { owner }))
    }
}
