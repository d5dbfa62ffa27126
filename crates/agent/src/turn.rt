// One submessage, in the bytes that it stands in: opened or touched, handled, replied to.
ghost use Rattle.std.specs.Prelude.{◌≡◌, ◌≤◌};
ghost use Rattle.codec.specs.Bytes.{put_bytes};
ghost use Rattle.sessions.specs.Table.{named_of};
ghost use Rattle.sessions.specs.Opening.{created_of, opened_rows, opened_streams};
ghost use Rattle.moves.specs.Rows.{rows};
ghost use Rattle.agent.specs.Run.{put_replies, settled, stop_of, greeting_bytes, greeted, passed, is_live, delivered, taken_of};

use crate::clients::{pointer, put_greeting};
use crate::repeats::answer;
use crate::replies::count;
use crate::state::Moment;
use codec::layouts::{Cursor, Span};
use codec::refusals::Refusal;
use codec::submessages::{ObjectNumber, Submessage};
use moves::handle::{Asked, Opening, asks, blank, handle};
use moves::moves::Move;
use moves::proxy::{BridgeCall, Task};
use sessions::objects::Object;
use sessions::opening::create_session;
use sessions::stream_rows::StreamRow;
use sessions::table::{SessionRow, touch};

// What a datagram's submessages have in common: the limit, the moment, the header's session and stream, and the output's room. That the room
// leaves place to count on is a clause of those who count, and no ghost field: specs/ makes frames of any numbers.
#[derive(Clone, Copy, Debug, PartialEq, Eq)]
pub(crate) struct Frame {
    pub max_clients: usize,
    pub moment: Moment,
    pub session_id: u8,
    pub stream_id: u8,
    pub room: usize,
}

// A call ends the run: of a submessage as it stands in its bytes; or of a rebuilt one, with the place behind it in the rebuilt
// bytes, and how many these are. Three cases, and no Option: specs/Run.antt and Legs.antt go by them.
#[derive(Clone, Copy, Debug, PartialEq, Eq)]
pub(crate) enum Stop {
    Nothing,
    Call(ObjectNumber, Task, BridgeCall),
    Inside(ObjectNumber, Task, BridgeCall, usize, usize),
}

// A run so far: the id pointer, the place in the datagram, the bytes replied, and the call that ends it, if any.
#[derive(Clone, Copy, Debug, PartialEq, Eq)]
pub(crate) struct Ran {
    pub next: u8,
    pub at: usize,
    pub wrote: usize,
    pub stop: Stop,
}

fn stop_of(m: Move) -> Stop
    ensures { result ≡ stop_of m }
{
    match m {
        Move::Calls(number, task, call) => Stop::Call(number, task, call),
        Move::Greets(_, _)
        | Move::Status(_, _)
        | Move::Acknack(_)
        | Move::Repeats(_)
        | Move::Silent => Stop::Nothing,
    }
}

// On behind the submessage.
fn settle(next: u8, at: usize, wrote: usize, m: Move) -> Ran
    ensures { result ≡ settled next at wrote m }
{
    let stop = stop_of(m);
    Ran {
        next,
        at,
        wrote,
        stop,
    }
}

// CREATE_CLIENT
pub(crate) fn greet(
    sessions: &mut [SessionRow],
    streams: &mut [StreamRow],
    out: &mut [u8],
    f: Frame,
    r: Ran,
    key: u32,
    at: usize,
) -> Ran
    requires { f.room ≤ 9223372036854775807 }
    ensures { (result ≡ greeted f r at (created_of sessions.old streams.old f.max_clients r.next))
        × (sessions.new ≡ opened_rows (created_of sessions.old streams.old f.max_clients r.next) sessions.old key f.moment.time)
        × (streams.new ≡ opened_streams (created_of sessions.old streams.old f.max_clients r.next) streams.old)
        × (out.new ≡ put_bytes out.old r.wrote (greeting_bytes (created_of sessions.old streams.old f.max_clients r.next))) }
{
    let c = create_session(sessions, streams, f.max_clients, r.next, key, f.moment.time);
    put_greeting(out, r.wrote, c);
    let wrote = count(f.room, r.wrote, 11);
    Ran {
        next: pointer(c, r.next),
        at,
        wrote,
        stop: Stop::Nothing,
    }
}

// "No such session: no reply."
pub(crate) fn passed(r: Ran, at: usize) -> Ran
    ensures { result ≡ passed r at }
{
    Ran { at, ..r }
}

pub(crate) fn is_live(named: Result<bool, Refusal>) -> bool
    ensures { result ≡ is_live named }
{
    matches!(named, Ok(true))
}

// What was read at a place of the datagram, taken apart: what it asks for, its body, and where the next one begins. Where
// no submessage was read, the next place is the end.
#[derive(Clone, Copy, Debug, PartialEq, Eq)]
pub(crate) struct Taken {
    pub asked: Asked,
    pub body: Span,
    pub at: usize,
}

pub(crate) fn take_apart(p: Result<(Submessage, Span, Cursor), Refusal>, len: usize) -> Taken
    ensures { result ≡ taken_of p len }
{
    match p {
        Ok((m, body, next)) => Taken {
            asked: asks(m),
            body,
            at: next.at,
        },
        Err(_) => Taken {
            asked: blank(Opening::Unread),
            body: Span { start: 0, len: 0 },
            at: len,
        },
    }
}

// Any other submessage, over the bytes that it stands in: "the session is touched first with the datagram's time."
// On slices: its bytes may be the rebuilt ones, which are a field of `Stores`.
pub(crate) fn deliver(
    sessions: &mut [SessionRow],
    streams: &mut [StreamRow],
    objects: &mut [Object],
    held: &[u8],
    out: &mut [u8],
    d: &[u8],
    f: Frame,
    r: Ran,
    took: Taken,
) -> Ran
    requires { f.room ≤ 9223372036854775807 }
    ensures { (result ≡ (delivered (named_of sessions.old f.session_id) f (rows sessions.old streams.old objects.old) held.now d.now r took).ran)
        × (sessions.new ≡ (delivered (named_of sessions.old f.session_id) f (rows sessions.old streams.old objects.old) held.now d.now r took).rows.sessions)
        × (streams.new ≡ (delivered (named_of sessions.old f.session_id) f (rows sessions.old streams.old objects.old) held.now d.now r took).rows.streams)
        × (objects.new ≡ (delivered (named_of sessions.old f.session_id) f (rows sessions.old streams.old objects.old) held.now d.now r took).rows.objects)
        × (out.new ≡ put_replies f.room out.old r.wrote (delivered (named_of sessions.old f.session_id) f (rows sessions.old streams.old objects.old) held.now d.now r took).replies) }
{
    let id = f.session_id;
    let n = f.stream_id;
    let named = touch(sessions, id, f.moment.time);
    if is_live(named) {
        let v = handle(
            sessions,
            streams,
            objects,
            d,
            id,
            n,
            took.asked,
            took.body,
            f.moment.is_open,
        );
        let w = answer(sessions, streams, held, out, f, r.wrote, v);
        settle(r.next, took.at, w, v)
    } else {
        passed(r, took.at)
    }
}
