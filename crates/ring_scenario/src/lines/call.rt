//! The call that a line asks for.
ghost use Rattle.std.specs.Prelude.{◌≡◌, ◌≢◌, ◌∷◌, IfErr, IfOk, codes};
ghost use Rattle.ring_scenario.specs.Forms.{kinds_of, spelled, Refuses};
ghost use Rattle.ring_scenario.specs.Cutting.{words_of, IsBlank, IsEnd};

use super::Words;
use super::fault::{LineError, LineFault};
use super::name::Name;
use super::service_call::ServiceCall;
use ring_words::Action;
use std::alloc::Global;

/// The call that a line of a scenario asks for.
#[derive(Drop)]
pub enum Line {
    /// The line has no words, or is a comment.
    Nothing,
    Call(Call),
    End,
}

impl Line {
    ghost use Rattle.ring_scenario.specs.Asking.{AsksForNone, IsLine};

    /// Parses a line, without its line feed. A line without words, a comment, and `end` alone are not faults. A line
    /// whose words ask for a call is never bad.
    pub fn parse(alloc: Global, text: &[u8]) -> Result<Line, LineFault>
        ensures line { IfOk result (λ line. IsLine line (words_of text.now)) }
        ensures blank { IsBlank (words_of text.now) → result ≡ Ok Line.Nothing }
        ensures end { IsEnd (words_of text.now) → result ≡ Ok Line.End }
        ensures bad { IfErr result (λ fault. fault ≢ LineFault.OutOfMemory → AsksForNone (words_of text.now)) }
    {
        match Line::of_words(alloc, text) {
            Err(fault) => Err(fault.in_text(text)),
            parsed => parsed,
        }
    }

    /// Parses a line. A carriage return is a part of a word.
    fn of_words(alloc: Global, text: &[u8]) -> Result<Line, LineFault>
        ensures line { IfOk result (λ line. IsLine line (words_of text.now)) }
        ensures blank { IsBlank (words_of text.now) → result ≡ Ok Line.Nothing }
        ensures end { IsEnd (words_of text.now) → result ≡ Ok Line.End }
        ensures bad { IfErr result (λ fault. fault ≢ LineFault.OutOfMemory → AsksForNone (words_of text.now)) }
    {
        let mut words = Words::of(text);
        let Some(word) = words.next_word() else {
            return Ok(Line::Nothing);
        };
        if word.starts_with(b"#") {
            return Ok(Line::Nothing);
        }
        if word == b"end".as_slice() {
            words.finish()?;
            return Ok(Line::End);
        }
        let Some(name) = Name::of(word) else {
            return Err(LineFault::Bad(LineError::NoSuchCall));
        };
        Ok(Line::Call(Call::parse(alloc, name, &mut words)?))
    }
}

/// A call of the ring, of the broadcast buffer, or of the conductor's side, as a line asks for it.
#[derive(Drop)]
pub enum Call {
    /// `write TYPE HEX`
    Write {
        type_id: i32,
        body: Vec<u8>,
    },
    /// `claim TYPE LEN`
    Claim {
        type_id: i32,
        len: usize,
    },
    /// `put K OFFSET HEX`
    Put {
        number: usize,
        offset: usize,
        bytes: Vec<u8>,
    },
    /// `commit K`
    Commit {
        number: usize,
    },
    /// `abort K`
    Abort {
        number: usize,
    },
    /// `read LIMIT`
    Read {
        limit: u32,
    },
    /// `control LIMIT LETTERS`
    Control {
        limit: u32,
        actions: Vec<Action>,
    },
    /// `positions`
    Positions,
    /// `correlation`
    Correlation,
    /// `beat N`
    Beat {
        value: u64,
    },
    /// `heartbeat`
    Heartbeat,
    /// `transmit TYPE HEX`
    Transmit {
        type_id: i32,
        body: Vec<u8>,
    },
    /// `subscribe`
    Subscribe,
    /// `receive K`
    Receive {
        number: usize,
    },
    /// `leave K`
    Leave {
        number: usize,
    },
    /// `storm CLIENTS COMMANDS`
    Storm {
        clients: u32,
        commands: u32,
    },
    /// A line of the conductor's side.
    Service(ServiceCall),
}

impl Call {
    ghost use Rattle.ring_scenario.specs.Asking.{AsksFor};

    /// Parses the words after the first one, which names the call.
    fn parse(alloc: Global, name: Name, words: &mut Words) -> Result<Call, LineFault>
        ensures call { IfOk result (λ call. AsksFor call (spelled name ∷ words_of words.old.rest.now)) }
        ensures bad { IfErr result (Refuses (kinds_of name) words.old) }
    {
        match name {
            Name::Write => Self::write(alloc, words),
            Name::Claim => Self::claim(words),
            Name::Put => Self::put(alloc, words),
            Name::Commit => Self::commit(words),
            Name::Abort => Self::abort(words),
            Name::Read => Self::read(words),
            Name::Control => Self::control(alloc, words),
            Name::Positions => Self::positions(words),
            Name::Correlation => Self::correlation(words),
            Name::Beat => Self::beat(words),
            Name::Heartbeat => Self::heartbeat(words),
            Name::Transmit => Self::transmit(alloc, words),
            Name::Subscribe => Self::subscribe(words),
            Name::Receive => Self::receive(words),
            Name::Leave => Self::leave(words),
            Name::Storm => Self::storm(words),
            Name::Send => ServiceCall::send(alloc, words).map(Call::Service),
            Name::Allocate => ServiceCall::allocate(alloc, words).map(Call::Service),
            Name::Own => ServiceCall::own(alloc, words).map(Call::Service),
            Name::Free => ServiceCall::free(words).map(Call::Service),
            Name::Set => ServiceCall::set(words).map(Call::Service),
            Name::Close => ServiceCall::close(words).map(Call::Service),
            Name::Work => ServiceCall::work(words).map(Call::Service),
            Name::Listen => ServiceCall::listen(words).map(Call::Service),
            Name::Hear => ServiceCall::hear(words).map(Call::Service),
            Name::Counters => ServiceCall::counters(words).map(Call::Service),
            Name::Owner => ServiceCall::owner(words).map(Call::Service),
            Name::Watch => ServiceCall::watch(words).map(Call::Service),
            Name::Peek => ServiceCall::peek(words).map(Call::Service),
            Name::Unwatch => ServiceCall::unwatch(words).map(Call::Service),
        }
    }

    fn write(alloc: Global, words: &mut Words) -> Result<Call, LineFault>
        ensures call { IfOk result (λ call. AsksFor call (codes "write" ∷ words_of words.old.rest.now)) }
        ensures bad { IfErr result (Refuses (kinds_of Name.Write) words.old) }
    {
        let type_id = words.i32()?;
        let body = words.bytes(alloc)?;
        words.finish()?;
        Ok(Call::Write { type_id, body })
    }

    fn claim(words: &mut Words) -> Result<Call, LineFault>
        ensures call { IfOk result (λ call. AsksFor call (codes "claim" ∷ words_of words.old.rest.now)) }
        ensures bad { IfErr result (Refuses (kinds_of Name.Claim) words.old) }
    {
        let type_id = words.i32()?;
        let len = words.usize()?;
        words.finish()?;
        Ok(Call::Claim { type_id, len })
    }

    fn put(alloc: Global, words: &mut Words) -> Result<Call, LineFault>
        ensures call { IfOk result (λ call. AsksFor call (codes "put" ∷ words_of words.old.rest.now)) }
        ensures bad { IfErr result (Refuses (kinds_of Name.Put) words.old) }
    {
        let number = words.usize()?;
        let offset = words.usize()?;
        let bytes = words.bytes(alloc)?;
        words.finish()?;
        Ok(Call::Put {
            number,
            offset,
            bytes,
        })
    }

    fn commit(words: &mut Words) -> Result<Call, LineFault>
        ensures call { IfOk result (λ call. AsksFor call (codes "commit" ∷ words_of words.old.rest.now)) }
        ensures bad { IfErr result (Refuses (kinds_of Name.Commit) words.old) }
    {
        let number = words.usize()?;
        words.finish()?;
        Ok(Call::Commit { number })
    }

    fn abort(words: &mut Words) -> Result<Call, LineFault>
        ensures call { IfOk result (λ call. AsksFor call (codes "abort" ∷ words_of words.old.rest.now)) }
        ensures bad { IfErr result (Refuses (kinds_of Name.Abort) words.old) }
    {
        let number = words.usize()?;
        words.finish()?;
        Ok(Call::Abort { number })
    }

    fn read(words: &mut Words) -> Result<Call, LineFault>
        ensures call { IfOk result (λ call. AsksFor call (codes "read" ∷ words_of words.old.rest.now)) }
        ensures bad { IfErr result (Refuses (kinds_of Name.Read) words.old) }
    {
        let limit = words.u32()?;
        words.finish()?;
        Ok(Call::Read { limit })
    }

    fn control(alloc: Global, words: &mut Words) -> Result<Call, LineFault>
        ensures call { IfOk result (λ call. AsksFor call (codes "control" ∷ words_of words.old.rest.now)) }
        ensures bad { IfErr result (Refuses (kinds_of Name.Control) words.old) }
    {
        let limit = words.u32()?;
        let actions = words.actions(alloc)?;
        words.finish()?;
        Ok(Call::Control { limit, actions })
    }

    fn positions(words: &mut Words) -> Result<Call, LineFault>
        ensures call { IfOk result (λ call. AsksFor call (codes "positions" ∷ words_of words.old.rest.now)) }
        ensures bad { IfErr result (Refuses (kinds_of Name.Positions) words.old) }
    {
        words.finish()?;
        Ok(Call::Positions)
    }

    fn correlation(words: &mut Words) -> Result<Call, LineFault>
        ensures call { IfOk result (λ call. AsksFor call (codes "correlation" ∷ words_of words.old.rest.now)) }
        ensures bad { IfErr result (Refuses (kinds_of Name.Correlation) words.old) }
    {
        words.finish()?;
        Ok(Call::Correlation)
    }

    fn beat(words: &mut Words) -> Result<Call, LineFault>
        ensures call { IfOk result (λ call. AsksFor call (codes "beat" ∷ words_of words.old.rest.now)) }
        ensures bad { IfErr result (Refuses (kinds_of Name.Beat) words.old) }
    {
        let value = words.u64()?;
        words.finish()?;
        Ok(Call::Beat { value })
    }

    fn heartbeat(words: &mut Words) -> Result<Call, LineFault>
        ensures call { IfOk result (λ call. AsksFor call (codes "heartbeat" ∷ words_of words.old.rest.now)) }
        ensures bad { IfErr result (Refuses (kinds_of Name.Heartbeat) words.old) }
    {
        words.finish()?;
        Ok(Call::Heartbeat)
    }

    fn transmit(alloc: Global, words: &mut Words) -> Result<Call, LineFault>
        ensures call { IfOk result (λ call. AsksFor call (codes "transmit" ∷ words_of words.old.rest.now)) }
        ensures bad { IfErr result (Refuses (kinds_of Name.Transmit) words.old) }
    {
        let type_id = words.i32()?;
        let body = words.bytes(alloc)?;
        words.finish()?;
        Ok(Call::Transmit { type_id, body })
    }

    fn subscribe(words: &mut Words) -> Result<Call, LineFault>
        ensures call { IfOk result (λ call. AsksFor call (codes "subscribe" ∷ words_of words.old.rest.now)) }
        ensures bad { IfErr result (Refuses (kinds_of Name.Subscribe) words.old) }
    {
        words.finish()?;
        Ok(Call::Subscribe)
    }

    fn receive(words: &mut Words) -> Result<Call, LineFault>
        ensures call { IfOk result (λ call. AsksFor call (codes "receive" ∷ words_of words.old.rest.now)) }
        ensures bad { IfErr result (Refuses (kinds_of Name.Receive) words.old) }
    {
        let number = words.usize()?;
        words.finish()?;
        Ok(Call::Receive { number })
    }

    fn leave(words: &mut Words) -> Result<Call, LineFault>
        ensures call { IfOk result (λ call. AsksFor call (codes "leave" ∷ words_of words.old.rest.now)) }
        ensures bad { IfErr result (Refuses (kinds_of Name.Leave) words.old) }
    {
        let number = words.usize()?;
        words.finish()?;
        Ok(Call::Leave { number })
    }

    fn storm(words: &mut Words) -> Result<Call, LineFault>
        ensures call { IfOk result (λ call. AsksFor call (codes "storm" ∷ words_of words.old.rest.now)) }
        ensures bad { IfErr result (Refuses (kinds_of Name.Storm) words.old) }
    {
        let clients = words.u32()?;
        let commands = words.u32()?;
        words.finish()?;
        Ok(Call::Storm { clients, commands })
    }
}
