// One submessage of a live session: what it asks for is taken apart once, by value, and handled over the session's rows.
ghost use Rattle.std.specs.Prelude.{◌≡◌};
ghost use Rattle.moves.specs.Rows.{rows, blank_asked, names_one, on_stream, asks_of, handled_move, handled_rows};

use crate::moves::Move;
use crate::objects::{create, delete, read_data, write_data};
use crate::stream_moves::{acknack, heartbeat};
use codec::layouts::Span;
use codec::submessages::{
    AcknackPayload, CreatePayload, HeartbeatPayload, ObjectKind, ObjectNumber, Submessage,
};
use sessions::objects::Object;
use sessions::stream_rows::StreamRow;
use sessions::table::SessionRow;

// Whether a submessage opens a session, is a FRAGMENT, or goes to the session as it stands; `Unread` where none was read.
#[derive(Debug, Clone, Copy, PartialEq, Eq)]
pub enum Opening {
    Client,
    Fragment,
    Other,
    Unread,
}

// What it is about.
#[derive(Debug, Clone, Copy, PartialEq, Eq)]
pub enum Group {
    Creates,
    Deletes,
    Writes,
    Reads,
    Streams,
    Neither,
}

// A submessage, taken apart: the key of a CREATE_CLIENT; the object that a CREATE, DELETE, WRITE_DATA or READ_DATA names, and
// a CREATE's kind and parent; the two numbers of a HEARTBEAT, which hears, of an ACKNACK, or of a FRAGMENT. What it doesn't
// have is zero.
// Flat, and no enum with payloads: a walk that branches on such an enum takes ten times as long to prove (docs/DECISIONS.md, 80).
#[derive(Clone, Copy, Debug, PartialEq, Eq)]
pub struct Asked {
    pub opening: Opening,
    pub group: Group,
    pub key: u32,
    pub number: ObjectNumber,
    pub kind: ObjectKind,
    pub parent: u16,
    pub hears: bool,
    pub first: u16,
    pub second: u16,
}

// Nothing but whether it opens a session.
pub fn blank(opening: Opening) -> Asked
    ensures { result ≡ blank_asked opening }
{
    Asked {
        opening,
        group: Group::Neither,
        key: 0,
        number: ObjectNumber(0),
        kind: ObjectKind::Participant,
        parent: 0,
        hears: false,
        first: 0,
        second: 0,
    }
}

fn names(group: Group, number: ObjectNumber) -> Asked
    ensures { result ≡ names_one group number }
{
    Asked {
        group,
        number,
        ..blank(Opening::Other)
    }
}

fn on_stream(hears: bool, first: u16, second: u16) -> Asked
    ensures { result ≡ on_stream hears first second }
{
    Asked {
        group: Group::Streams,
        hears,
        first,
        second,
        ..blank(Opening::Other)
    }
}

// Each kind, taken apart.
pub fn asks(m: Submessage) -> Asked
    ensures { result ≡ asks_of m }
{
    match m {
        Submessage::CreateClient(p) => Asked {
            key: p.client_key,
            ..blank(Opening::Client)
        },
        Submessage::Create(p) => Asked {
            group: Group::Creates,
            number: p.object_id,
            kind: p.kind,
            parent: p.parent_id,
            ..blank(Opening::Other)
        },
        Submessage::Delete(p) => names(Group::Deletes, p.object_id),
        Submessage::WriteData(p) => names(Group::Writes, p.writer_id),
        Submessage::ReadData(p) => names(Group::Reads, p.reader_id),
        Submessage::Heartbeat(p) => on_stream(true, p.first_unacked_seq, p.last_seq),
        Submessage::Acknack(p) => on_stream(false, p.first_unacked_seq, p.nack_bitmap),
        Submessage::Status(_) | Submessage::Data(_) => blank(Opening::Other),
        Submessage::Fragment(p) => Asked {
            first: p.fragment_nr,
            second: p.total_fragments,
            ..blank(Opening::Fragment)
        },
    }
}

// By what it is about: its handler, over the session's rows, and whether its datagram's minute is open. The session is
// live; CREATE_CLIENT is not for it, and a FRAGMENT is handled before.
pub fn handle(
    sessions: &mut [SessionRow],
    streams: &mut [StreamRow],
    objects: &mut [Object],
    d: &[u8],
    id: u8,
    n: u8,
    q: Asked,
    body: Span,
    may_write: bool,
) -> Move
    ensures { (result ≡ handled_move may_write q (rows sessions.old streams.old objects.old) d.now id n body)
        × (sessions.new ≡ (handled_rows q (rows sessions.old streams.old objects.old) id n).sessions)
        × (streams.new ≡ (handled_rows q (rows sessions.old streams.old objects.old) id n).streams)
        × (objects.new ≡ (handled_rows q (rows sessions.old streams.old objects.old) id n).objects) }
{
    match q.group {
        Group::Creates => {
            let p = CreatePayload {
                object_id: q.number,
                kind: q.kind,
                parent_id: q.parent,
            };
            create(sessions, objects, d, id, p, body)
        }
        Group::Deletes => delete(sessions, objects, id, q.number),
        Group::Writes => write_data(sessions, objects, id, q.number, body, may_write),
        Group::Reads => read_data(sessions, streams, objects, id, n, q.number),
        Group::Streams if q.hears => {
            let p = HeartbeatPayload {
                first_unacked_seq: q.first,
                last_seq: q.second,
            };
            heartbeat(sessions, streams, id, n, p)
        }
        Group::Streams => {
            let p = AcknackPayload {
                first_unacked_seq: q.first,
                nack_bitmap: q.second,
            };
            acknack(sessions, streams, id, n, p)
        }
        Group::Neither => Move::Silent,
    }
}
