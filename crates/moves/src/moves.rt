// Document 01's rules by value: what a submessage comes to, from what the tables hold.
ghost use Rattle.std.specs.Prelude.{◌≡◌};
ghost use Rattle.codec.specs.Submessages.{kind_byte};
ghost use Rattle.moves.specs.Moves.{found_handle, handle_of_kind, parent_of, participant_move, topic_move, endpoint_call, endpoint_move, write_move, read_call, read_on, dropped_move, delete_move, heartbeat_move, acknack_on};

use crate::proxy::{BridgeCall, Task};
use codec::layouts::Span;
use codec::refusals::Refusal;
use codec::submessages::{
    AcknackPayload, CreatePayload, HeartbeatPayload, ObjectKind, ObjectNumber, StatusCode,
};
use sessions::objects::{Handle, Object, Taken};
use sessions::session_streams::{StreamNamed, StreamRead};

// The STATUS that answers a CREATE_CLIENT, with its session's id; a STATUS for an object; an ACKNACK; the held messages that
// an ACKNACK asks for; a call for an object; nothing.
#[derive(Clone, Copy, Debug, PartialEq, Eq)]
pub enum Move {
    Greets(u8, StatusCode),
    Status(ObjectNumber, StatusCode),
    Acknack(AcknackPayload),
    Repeats(AcknackPayload),
    Calls(ObjectNumber, Task, BridgeCall),
    Silent,
}

// The handle of an object, if it is there and has one.
pub(crate) fn found_handle(f: Result<Option<Object>, Refusal>) -> Option<Handle>
    ensures { result ≡ found_handle f }
{
    f.ok().flatten()?.bridge_handle()
}

// The same of an object that is "held with that kind" (document 02, W1).
fn handle_of_kind(f: Result<Option<Object>, Refusal>, kind: ObjectKind) -> Option<Handle>
    ensures { result ≡ handle_of_kind f (kind_byte kind) }
{
    let o = f.ok().flatten()?;
    if o.kind == kind.as_u8() {
        o.bridge_handle()
    } else {
        None
    }
}

// The number that an object's CREATE named as its parent; 0 where there is no such object, and then nothing is made of
// what it leads to.
pub(crate) fn parent_of(f: Result<Option<Object>, Refusal>) -> ObjectNumber
    ensures { result ≡ parent_of f }
{
    ObjectNumber(f.ok().flatten().map_or(0, |o| o.parent))
}

// CREATE of a Participant: its parent number is the domain.
pub(crate) fn participant_move(p: CreatePayload) -> Move
    ensures { result ≡ participant_move p.object_id p.parent_id }
{
    Move::Calls(
        p.object_id,
        Task::Creating(ObjectKind::Participant.as_u8(), p.parent_id),
        BridgeCall::CreateParticipant(p.parent_id),
    )
}

// CREATE of a Topic, by the object of its parent number: "A Topic whose strings are cut short or ill-formed answers
// ERR_INVALID_DATA without a call" (document 02, W7).
pub(crate) fn topic_move(
    p: CreatePayload,
    names: Option<(Span, Span)>,
    found: Result<Option<Object>, Refusal>,
) -> Move
    ensures { result ≡ topic_move p.object_id p.parent_id names found }
{
    if let Some(participant) = found_handle(found)
        && let Some((name, type_name)) = names
    {
        Move::Calls(
            p.object_id,
            Task::Creating(ObjectKind::Topic.as_u8(), p.parent_id),
            BridgeCall::CreateTopic(participant, name, type_name),
        )
    } else {
        Move::Status(p.object_id, StatusCode::ErrInvalidData)
    }
}

fn endpoint_call(kind: ObjectKind, participant: Handle, topic: Handle) -> BridgeCall
    ensures { result ≡ endpoint_call (kind_byte kind) participant topic }
{
    if let ObjectKind::DataWriter = kind {
        BridgeCall::CreateWriter(participant, topic)
    } else {
        BridgeCall::CreateReader(participant, topic)
    }
}

// CREATE of a DataWriter or a DataReader, by the object that its parent number names, which must be a Topic, and the one
// that this Topic's parent names, which must be a Participant (document 02, W1).
pub(crate) fn endpoint_move(
    p: CreatePayload,
    topic: Result<Option<Object>, Refusal>,
    participant: Result<Option<Object>, Refusal>,
) -> Move
    ensures { result ≡ endpoint_move p.object_id (kind_byte p.kind) p.parent_id topic participant }
{
    if let Some(above) = handle_of_kind(participant, ObjectKind::Participant)
        && let Some(t) = handle_of_kind(topic, ObjectKind::Topic)
    {
        Move::Calls(
            p.object_id,
            Task::Creating(p.kind.as_u8(), p.parent_id),
            endpoint_call(p.kind, above, t),
        )
    } else {
        Move::Status(p.object_id, StatusCode::ErrInvalidData)
    }
}

// WRITE_DATA: in a closed minute a known writer is not called (document 02, W8).
pub(crate) fn write_move(
    may_write: bool,
    number: ObjectNumber,
    body: Span,
    writer: Result<Option<Object>, Refusal>,
) -> Move
    ensures { result ≡ write_move may_write number body writer }
{
    match found_handle(writer) {
        Some(w) if may_write => {
            Move::Calls(number, Task::Writing, BridgeCall::WriteData(w, body))
        }
        Some(_) => Move::Status(number, StatusCode::ErrIncompatible),
        None => Move::Status(number, StatusCode::ErrUnknownRef),
    }
}

pub(crate) fn read_call(number: ObjectNumber, reader: Handle) -> Move
    ensures { result ≡ read_call number reader }
{
    Move::Calls(number, Task::Reading, BridgeCall::ReadData(reader))
}

// READ_DATA on a stream other than 0, as it is read behind its opening (document 02, W5): a ninth stream gets no reply and
// no call, and with 16 held the bridge isn't called.
pub(crate) fn read_on(stream: StreamRead, number: ObjectNumber, reader: Handle) -> Move
    ensures { result ≡ read_on stream.answer stream.state number reader }
{
    match stream.answer {
        Ok(StreamNamed::Open) if stream.state.is_full() => {
            Move::Status(number, StatusCode::ErrResources)
        }
        Ok(StreamNamed::Open) => read_call(number, reader),
        Ok(StreamNamed::NotOpen | StreamNamed::NotLive) | Err(_) => Move::Silent,
    }
}

fn dropped_move(number: ObjectNumber, handle: Option<Handle>) -> Move
    ensures { result ≡ dropped_move number handle }
{
    match handle {
        Some(h) => Move::Calls(number, Task::Deleting, BridgeCall::DeleteEntity(h)),
        None => Move::Status(number, StatusCode::Ok),
    }
}

// DELETE, by what was taken out; an object that another depends on stays (document 02, W3).
pub(crate) fn delete_move(number: ObjectNumber, gone: Result<Taken, Refusal>) -> Move
    ensures { result ≡ delete_move number gone }
{
    match gone {
        Ok(Taken::Gone(o)) => dropped_move(number, o.bridge_handle()),
        Ok(Taken::Depended) => Move::Status(number, StatusCode::ErrIncompatible),
        Ok(Taken::Nothing) | Err(_) => Move::Status(number, StatusCode::ErrUnknownRef),
    }
}

// HEARTBEAT, on its stream as it is read behind its opening: a ninth stream gets no reply.
pub(crate) fn heartbeat_move(stream: StreamRead, p: HeartbeatPayload) -> Move
    ensures { result ≡ heartbeat_move stream p }
{
    if let Ok(StreamNamed::Open) = stream.answer {
        Move::Acknack(stream.state.make_acknack(p.first_unacked_seq, p.last_seq))
    } else {
        Move::Silent
    }
}

// ACKNACK, on its stream as it is read behind its opening: stream 0 holds nothing to repeat.
pub(crate) fn acknack_move(stream: StreamRead, p: AcknackPayload) -> Move
    ensures { result ≡ acknack_on stream.answer stream.state p }
{
    match stream.answer {
        Ok(StreamNamed::Open) if stream.state.stream_id != 0 => Move::Repeats(p),
        Ok(_) | Err(_) => Move::Silent,
    }
}
