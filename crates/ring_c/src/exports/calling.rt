//! What handles of clients do.
// Written by c/bindings from felter.h and exports.txt. To change this file, change them and run c/bindings.
ghost use Rattle.ring_c.specs.Told.{Yields};
ghost use Rattle.ring_handles.specs.Calling.{poll_out, ClientBeat, WasPolled, WasSent};
ghost use Rattle.ring_handles.specs.Kinds.{a_client};
ghost use Rattle.ring_protocol.specs.declared.command.Request.TheVariants.{Allocate, AllocateOwned, Close, Free, Set};

use crate::work_on::work_on;
use ring_handles::Handle;
use ring_service::Request;
use std::alloc::Global;

/// Tries once to send a command that allocates a counter with the value 0, and writes the correlation id that was drawn
/// for the command. The reply says whether the conductor applied or refused the command. The registration id of the
/// counter is the correlation id of the command. The command takes 20 bytes, plus the bytes of the key and the label.
/// Codes:
/// - FELTER_TOO_LONG if the command takes more than 520 bytes, or more than an eighth of the ring's capacity. No id is
///   drawn for a command of more than 520 bytes;
/// - FELTER_POSITION_LIMIT, FELTER_INSUFFICIENT_CAPACITY, FELTER_CONTENDED.
///
/// If the call refuses a command for which an id was drawn, no other command gets that id.
#[unsafe(no_mangle)]
pub extern "C" fn felter_send_allocate(
    alloc: Global,
    client: &mut Handle,
    type_id: i32,
    key: &[u8],
    label: &[u8],
    id: &mut u64,
) -> i32
    ensures { Yields a_client (WasSent (Allocate type_id key.entry label.entry)) id.old id.new client.old.held
        client.new.held result }
{
    let request = Request::Allocate {
        type_id,
        key,
        label,
    };
    work_on!(client, alloc, Client(side) => side.send(request, id))
}

/// Tries once to send a command that allocates a counter with an owner. Otherwise the call is the same as
/// felter_send_allocate. The owner 0 means that the counter has no owner. The command takes 8 bytes more.
#[unsafe(no_mangle)]
pub extern "C" fn felter_send_allocate_owned(
    alloc: Global,
    client: &mut Handle,
    type_id: i32,
    owner: u64,
    key: &[u8],
    label: &[u8],
    id: &mut u64,
) -> i32
    ensures { Yields a_client (WasSent (AllocateOwned type_id owner key.entry label.entry)) id.old id.new
        client.old.held client.new.held result }
{
    let owned = Request::AllocateOwned {
        type_id,
        owner,
        key,
        label,
    };
    work_on!(client, alloc, Client(side) => side.send(owned, id))
}

/// Tries once to send a command that frees a counter, as felter_send_allocate sends one, with the same codes.
#[unsafe(no_mangle)]
pub extern "C" fn felter_send_free(
    alloc: Global,
    client: &mut Handle,
    counter: u32,
    id: &mut u64,
) -> i32
    ensures { Yields a_client (WasSent (Free counter)) id.old id.new client.old.held client.new.held result }
{
    work_on!(client, alloc, Client(side) => side.send(Request::Free { id: counter }, id))
}

/// Tries once to send a command that sets a counter's value, as felter_send_allocate sends one, with the same codes.
#[unsafe(no_mangle)]
pub extern "C" fn felter_send_set(
    alloc: Global,
    client: &mut Handle,
    counter: u32,
    value: i64,
    id: &mut u64,
) -> i32
    ensures { Yields a_client (WasSent (Set counter value)) id.old id.new client.old.held client.new.held result }
{
    work_on!(client, alloc, Client(side) => side.send(Request::Set { id: counter, value }, id))
}

/// Tries once to send a command that frees each counter of an owner, as felter_send_allocate sends one, with the same
/// codes.
#[unsafe(no_mangle)]
pub extern "C" fn felter_send_close_owner(
    alloc: Global,
    client: &mut Handle,
    owner: u64,
    id: &mut u64,
) -> i32
    ensures { Yields a_client (WasSent (Close owner)) id.old id.new client.old.held client.new.held result }
{
    work_on!(client, alloc, Client(side) => side.send(Request::Close { owner }, id))
}

/// Takes the next message of the board. `correlation` is the id of the command whose reply the caller waits for. If the
/// message is this reply, the call writes the kind (enum felter_reply) and the number of the reply. Codes:
/// - FELTER_NO_MESSAGE if no message is there yet;
/// - FELTER_OTHER_REPLY if the message is the reply to another command, or is not a reply. The client skips this
///   message, so poll again;
/// - FELTER_LAPPED if the conductor overtook the client. *lapped is then the number of times that the client was
///   lapped. The next call goes on with the reply that was transmitted last. The client does not learn the results of
///   the commands that had no reply yet.
#[unsafe(no_mangle)]
pub extern "C" fn felter_poll(
    alloc: Global,
    client: &mut Handle,
    correlation: u64,
    kind: &mut i32,
    number: &mut i64,
    lapped: &mut u64,
) -> i32
    ensures { Yields a_client (WasPolled correlation) (poll_out kind.old number.old lapped.old)
        (poll_out kind.new number.new lapped.new) client.old.held client.new.held result }
{
    work_on!(client, alloc, Client(side) => side.poll(correlation, kind, number, lapped))
}

/// Loads the heartbeat that the conductor stored last. The heartbeat is 0 before the conductor stores one.
#[unsafe(no_mangle)]
pub extern "C" fn felter_client_heartbeat(
    alloc: Global,
    client: &mut Handle,
    value: &mut u64,
) -> i32
    ensures { Yields a_client (λ _ told. ClientBeat told) value.old value.new client.old.held client.new.held result }
{
    work_on!(client, alloc, Client(side) => side.heartbeat(value))
}
