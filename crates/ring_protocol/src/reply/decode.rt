//! The decoder of replies.

ghost use Rattle.std.specs.Prelude.{◌≡◌, IfOk, IfErr};
ghost use Rattle.ring_protocol.specs.{Bad.IsFaultOf, Reply.Spells, Reply.IsReplyType};
ghost use Rattle.ring_protocol.specs.Reading.{reply_of, allocated_of, done_of, refused_of, closed_of};

use super::{Reply, type_ids};
use crate::fault::Bad;
use crate::fields::{correlation_in, take_i32, take_u32, take_u64};

#[tactic(auto, unfolding(crate::specs::Reading::allocated_of))]
fn allocated(body: &[u8]) -> Option<Reply>
    ensures { result ≡ allocated_of body.now }
{
    let (correlation, rest) = take_u64(body)?;
    let (id, rest) = take_u32(rest)?;
    rest.is_empty()
        .then_some(Reply::Allocated { correlation, id })
}

#[tactic(auto, unfolding(crate::specs::Reading::done_of))]
fn done(body: &[u8]) -> Option<Reply>
    ensures { result ≡ done_of body.now }
{
    let (correlation, rest) = take_u64(body)?;
    rest.is_empty().then_some(Reply::Done { correlation })
}

#[tactic(auto, unfolding(crate::specs::Reading::refused_of))]
fn refused(body: &[u8]) -> Option<Reply>
    ensures { result ≡ refused_of body.now }
{
    let (correlation, rest) = take_u64(body)?;
    let (code, rest) = take_i32(rest)?;
    rest.is_empty()
        .then_some(Reply::Refused { correlation, code })
}

#[tactic(auto, unfolding(crate::specs::Reading::closed_of))]
fn closed(body: &[u8]) -> Option<Reply>
    ensures { result ≡ closed_of body.now }
{
    let (correlation, rest) = take_u64(body)?;
    let (freed, rest) = take_u32(rest)?;
    rest.is_empty()
        .then_some(Reply::Closed { correlation, freed })
}

#[tactic(auto, unfolding(crate::specs::Reading::reply_of))]
fn reply_in(type_id: i32, body: &[u8]) -> Result<Reply, Bad>
    ensures { result ≡ reply_of type_id body.now }
{
    let correlation = correlation_in(body);
    let reply = match type_id {
        type_ids::ALLOCATED => allocated(body),
        type_ids::DONE => done(body),
        type_ids::REFUSED => refused(body),
        type_ids::CLOSED => closed(body),
        _ => return Err(Bad::UnknownType { correlation }),
    };
    reply.ok_or(Bad::Malformed { correlation })
}

/// Decodes the reply that the type id and the body encode.
///
/// Returns `UnknownType` if no reply has the type id. Otherwise returns `Malformed` if the body is not an encoding of
/// such a reply.
pub fn decode_reply(type_id: i32, body: &[u8]) -> Result<Reply, Bad>
    // The result is a reply exactly if the bytes are its encoding.
    ensures found { IfOk result (Spells type_id body.now) }
    ensures only { (reply : Reply) → Spells type_id body.now reply → result ≡ Ok reply }

    // Otherwise the result is the fault, with the correlation id in the body.
    ensures bad { IfErr result (IsFaultOf (IsReplyType type_id) body.now) }

    // This clause states the same as one function of the type id and the body.
    ensures exact { result ≡ reply_of type_id body.now }
{
    reply_in(type_id, body)
}
