// CREATE, DELETE, WRITE_DATA and READ_DATA over the session's row of objects: each fetches and stores, and decides by the
// moves' functions.
ghost use Rattle.std.specs.Prelude.{◌≡◌};
ghost use Rattle.codec.specs.Submessages.{kind_byte};
ghost use Rattle.sessions.specs.Objects.{implicit_of};
ghost use Rattle.sessions.specs.SessionObjects.{found_object, stored_object, stored_objects, keep_stored};
ghost use Rattle.sessions.specs.Removal.{taken_object, removed_objects, keep_removed};
ghost use Rattle.sessions.specs.Room.{room_of};
ghost use Rattle.moves.specs.Moves.{found_handle, write_move, delete_move, topic_move};
ghost use Rattle.moves.specs.RowsStreams.{read_move, read_sessions, read_rows};
ghost use Rattle.moves.specs.Names.{names_in};
ghost use Rattle.moves.specs.Rows.{ok_move, endpoint_in, create_move, created_sessions, created_objects, room_move, room_sessions, room_objects};

use crate::moves::{
    Move, delete_move, endpoint_move, found_handle, parent_of, participant_move, topic_move,
    write_move,
};
use crate::names::names_in;
use crate::stream_moves::read_by;
use codec::layouts::Span;
use codec::submessages::{CreatePayload, ObjectKind, ObjectNumber, StatusCode};
use sessions::objects::Object;
use sessions::room::{Room, has_room};
use sessions::session_objects::{find_object, put_object, remove_object};
use sessions::stream_rows::StreamRow;
use sessions::table::SessionRow;

pub(crate) fn write_data(
    sessions: &[SessionRow],
    objects: &[Object],
    id: u8,
    number: ObjectNumber,
    body: Span,
    may_write: bool,
) -> Move
    ensures { result ≡ write_move may_write number body (found_object sessions.now objects.now id number) }
{
    let writer = find_object(sessions, objects, id, number);
    write_move(may_write, number, body, writer)
}

pub(crate) fn read_data(
    sessions: &mut [SessionRow],
    streams: &mut [StreamRow],
    objects: &[Object],
    id: u8,
    n: u8,
    number: ObjectNumber,
) -> Move
    ensures { (result ≡ read_move number (found_handle (found_object sessions.old objects.now id number)) sessions.old streams.old id n)
        × (sessions.new ≡ read_sessions (found_handle (found_object sessions.old objects.now id number)) sessions.old streams.old id n)
        × (streams.new ≡ read_rows (found_handle (found_object sessions.old objects.now id number)) sessions.old streams.old id n) }
{
    let reader = found_handle(find_object(sessions, objects, id, number));
    read_by(sessions, streams, id, n, number, reader)
}

// DELETE drops its object before its call, unless another depends on it.
pub(crate) fn delete(
    sessions: &mut [SessionRow],
    objects: &mut [Object],
    id: u8,
    number: ObjectNumber,
) -> Move
    ensures { (result ≡ delete_move number (taken_object sessions.old objects.old id number))
        × (sessions.new ≡ keep_removed sessions.old id (taken_object sessions.old objects.old id number))
        × (objects.new ≡ removed_objects sessions.old objects.old id number) }
{
    let gone = remove_object(sessions, objects, id, number);
    delete_move(number, gone)
}

fn create_topic(
    sessions: &[SessionRow],
    objects: &[Object],
    d: &[u8],
    id: u8,
    p: CreatePayload,
    body: Span,
) -> Move
    ensures { result ≡ topic_move p.object_id p.parent_id (names_in d.now body) (found_object sessions.now objects.now id (record { 0 = p.parent_id })) }
{
    let found = find_object(sessions, objects, id, ObjectNumber(p.parent_id));
    topic_move(p, names_in(d, body), found)
}

// Document 02, W1: the Topic that the parent number names, and the Participant that this Topic's parent names.
fn create_endpoint(sessions: &[SessionRow], objects: &[Object], id: u8, p: CreatePayload) -> Move
    ensures { result ≡ endpoint_in sessions.now objects.now id p.object_id (kind_byte p.kind) p.parent_id }
{
    let topic = find_object(sessions, objects, id, ObjectNumber(p.parent_id));
    let participant = find_object(sessions, objects, id, parent_of(topic));
    endpoint_move(p, topic, participant)
}

// Publishers and Subscribers have no handle: they are listed without a call.
fn create_implicit(
    sessions: &mut [SessionRow],
    objects: &mut [Object],
    id: u8,
    p: CreatePayload,
) -> Move
    ensures { (result ≡ ok_move p.object_id)
        × (sessions.new ≡ keep_stored sessions.old id (stored_object sessions.old objects.old id (implicit_of p.object_id (kind_byte p.kind) p.parent_id)))
        × (objects.new ≡ stored_objects sessions.old objects.old id (implicit_of p.object_id (kind_byte p.kind) p.parent_id)) }
{
    let o = Object::implicit(p.object_id, p.kind.as_u8(), p.parent_id);
    // There is room for it: `create` looks first.
    let _ = put_object(sessions, objects, id, o);
    Move::Status(p.object_id, StatusCode::Ok)
}

fn create_kind(
    sessions: &mut [SessionRow],
    objects: &mut [Object],
    d: &[u8],
    id: u8,
    p: CreatePayload,
    body: Span,
) -> Move
    ensures { (result ≡ create_move p.kind sessions.old objects.old d.now id p.object_id p.parent_id body)
        × (sessions.new ≡ created_sessions p.kind sessions.old objects.old id p.object_id p.parent_id)
        × (objects.new ≡ created_objects p.kind sessions.old objects.old id p.object_id p.parent_id) }
{
    match p.kind {
        ObjectKind::Participant => participant_move(p),
        ObjectKind::Topic => create_topic(sessions, objects, d, id, p, body),
        ObjectKind::Publisher | ObjectKind::Subscriber => {
            create_implicit(sessions, objects, id, p)
        }
        ObjectKind::DataWriter | ObjectKind::DataReader => {
            create_endpoint(sessions, objects, id, p)
        }
    }
}

// "CREATE of a 33rd number answers ERR_RESOURCES before any lookup or call."; so does, with ERR_INCOMPATIBLE, one of a
// number that another object depends on (document 02, W3).
pub(crate) fn create(
    sessions: &mut [SessionRow],
    objects: &mut [Object],
    d: &[u8],
    id: u8,
    p: CreatePayload,
    body: Span,
) -> Move
    ensures { (result ≡ room_move (room_of sessions.old objects.old id p.object_id) sessions.old objects.old d.now id p.object_id p.kind p.parent_id body)
        × (sessions.new ≡ room_sessions (room_of sessions.old objects.old id p.object_id) sessions.old objects.old id p.object_id p.kind p.parent_id)
        × (objects.new ≡ room_objects (room_of sessions.old objects.old id p.object_id) sessions.old objects.old id p.object_id p.kind p.parent_id) }
{
    match has_room(sessions, objects, id, p.object_id) {
        Ok(Room::Free) => create_kind(sessions, objects, d, id, p, body),
        Ok(Room::Full) => Move::Status(p.object_id, StatusCode::ErrResources),
        Ok(Room::Depended) => Move::Status(p.object_id, StatusCode::ErrIncompatible),
        Ok(Room::NotLive) | Err(_) => Move::Silent,
    }
}
