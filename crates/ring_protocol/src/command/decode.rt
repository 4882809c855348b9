//! The decoder of commands.

ghost use Rattle.std.specs.Prelude.{◌≡◌, IfOk, IsOkAnd, IfErr};
ghost use Rattle.std.specs.{Option.option_map, Result.result_map_both};
ghost use Rattle.ring_protocol.specs.Command.{Instruction, content_of, Spells, IsCommandType};
ghost use Rattle.ring_protocol.specs.Bad.{IsFaultOf};
ghost use Rattle.ring_protocol.specs.Reading.{command_of, allocate_of, free_of, set_of, allocate_owned_of, close_of};

use super::{Command, type_ids};
use crate::fault::Bad;
use crate::fields::{correlation_in, take_i32, take_i64, take_sized, take_u32, take_u64};

#[tactic(auto, unfolding(crate::specs::Reading::allocate_of))]
fn allocate(body: &[u8]) -> Option<Command<'_>>
    ensures { option_map content_of result ≡ allocate_of body.now }
{
    let (correlation, rest) = take_u64(body)?;
    let (type_id, rest) = take_i32(rest)?;
    let (key, rest) = take_sized(rest)?;
    let (label, rest) = take_sized(rest)?;
    rest.is_empty().then_some(Command::Allocate {
        correlation,
        type_id,
        key,
        label,
    })
}

#[tactic(auto, unfolding(crate::specs::Reading::free_of))]
fn free(body: &[u8]) -> Option<Command<'_>>
    ensures { option_map content_of result ≡ free_of body.now }
{
    let (correlation, rest) = take_u64(body)?;
    let (id, rest) = take_u32(rest)?;
    rest.is_empty().then_some(Command::Free { correlation, id })
}

#[tactic(auto, unfolding(crate::specs::Reading::set_of))]
fn set(body: &[u8]) -> Option<Command<'_>>
    ensures { option_map content_of result ≡ set_of body.now }
{
    let (correlation, rest) = take_u64(body)?;
    let (id, rest) = take_u32(rest)?;
    let (value, rest) = take_i64(rest)?;
    rest.is_empty().then_some(Command::Set {
        correlation,
        id,
        value,
    })
}

#[tactic(auto, unfolding(crate::specs::Reading::allocate_owned_of))]
fn allocate_owned(body: &[u8]) -> Option<Command<'_>>
    ensures { option_map content_of result ≡ allocate_owned_of body.now }
{
    let (correlation, rest) = take_u64(body)?;
    let (type_id, rest) = take_i32(rest)?;
    let (owner, rest) = take_u64(rest)?;
    let (key, rest) = take_sized(rest)?;
    let (label, rest) = take_sized(rest)?;
    rest.is_empty().then_some(Command::AllocateOwned {
        correlation,
        type_id,
        owner,
        key,
        label,
    })
}

#[tactic(auto, unfolding(crate::specs::Reading::close_of))]
fn close(body: &[u8]) -> Option<Command<'_>>
    ensures { option_map content_of result ≡ close_of body.now }
{
    let (correlation, rest) = take_u64(body)?;
    let (owner, rest) = take_u64(rest)?;
    rest.is_empty()
        .then_some(Command::Close { correlation, owner })
}

#[tactic(auto, unfolding(crate::specs::Reading::command_of))]
fn command_in(type_id: i32, body: &[u8]) -> Result<Command<'_>, Bad>
    ensures { result_map_both content_of (λ e. e) result ≡ command_of type_id body.now }
{
    let correlation = correlation_in(body);
    let command = match type_id {
        type_ids::ALLOCATE => allocate(body),
        type_ids::FREE => free(body),
        type_ids::SET => set(body),
        type_ids::ALLOCATE_OWNED => allocate_owned(body),
        type_ids::CLOSE => close(body),
        _ => return Err(Bad::UnknownType { correlation }),
    };
    command.ok_or(Bad::Malformed { correlation })
}

/// Decodes the command that the type id and the body encode. The command borrows its key and its label from the body.
///
/// Returns `UnknownType` if no command has the type id. Otherwise returns `Malformed` if the body is not an encoding of
/// such a command.
pub fn decode_command(type_id: i32, body: &[u8]) -> Result<Command<'_>, Bad>
    // The result is a command exactly if the bytes are its encoding.
    ensures found { IfOk result (λ c. Spells type_id body.now (content_of c)) }
    ensures only { (c : Instruction) → Spells type_id body.now c → IsOkAnd result (λ d. content_of d ≡ c) }

    // Otherwise the result is the fault, with the correlation id that the reply has.
    ensures bad { IfErr result (IsFaultOf (IsCommandType type_id) body.now) }

    // This clause states the same as one function of the type id and the body.
    ensures exact { result_map_both content_of (λ e. e) result ≡ command_of type_id body.now }
{
    command_in(type_id, body)
}
