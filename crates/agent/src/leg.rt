// A leg of a run: the submessages of one stretch of bytes in order, until a bridge call is handed out, a FRAGMENT is to be kept, or the end. Every
// submessage goes this one way, those of a datagram and rebuilt ones.
ghost use Rattle.std.specs.Prelude.{◌≡◌, ◌≤◌};
ghost use Rattle.moves.specs.Rows.{rows};
ghost use Rattle.agent.specs.Run.{put_replies, is_call, goes_on};
ghost use Rattle.agent.specs.Legs.{greets_in, keeps_in, step_of, plain_leg, led, is_entering, has_entered, leads_on, leg_at};

use crate::turn::{Frame, Ran, Stop, Taken, deliver, greet, is_live, passed, take_apart};
use codec::layouts::Cursor;
use codec::reading::read;
use moves::handle::Opening;
use sessions::objects::Object;
use sessions::stream_rows::StreamRow;
use sessions::table::{SessionRow, live_at};

// What the bytes are: a datagram's; rebuilt ones (document 02, W6), which were checked to hold no CREATE_CLIENT and no FRAGMENT; or a
// datagram's up to where the session that its header names is live. One loop for all three, which are told apart in it: with a loop for each, a
// submessage took two to three times as long (decision 146).
#[derive(Clone, Copy, Debug, PartialEq, Eq)]
pub(crate) enum Mode {
    Datagram,
    Rebuilt,
    Entering,
}

#[derive(Clone, Copy, Debug, PartialEq, Eq)]
pub(crate) struct Leg {
    pub ran: Ran,
    pub found: Option<Taken>,
}

// What is done with a submessage: a word of specs/Legs.antt (`step_of`), by which the laws of a leg go.
#[derive(Clone, Copy, Debug, PartialEq, Eq)]
pub(crate) enum Step {
    Greets,
    Keeps,
    Delivers,
    Passes,
}

fn greets_in(m: Mode) -> Step
    ensures { result ≡ greets_in m }
{
    match m {
        Mode::Datagram | Mode::Entering => Step::Greets,
        Mode::Rebuilt => Step::Passes,
    }
}

fn keeps_in(m: Mode) -> Step
    ensures { result ≡ keeps_in m }
{
    match m {
        Mode::Datagram => Step::Keeps,
        Mode::Rebuilt | Mode::Entering => Step::Passes,
    }
}

fn step_of(m: Mode, o: Opening) -> Step
    ensures { result ≡ step_of m o }
{
    match o {
        Opening::Client => greets_in(m),
        Opening::Fragment => keeps_in(m),
        Opening::Other => Step::Delivers,
        Opening::Unread => Step::Passes,
    }
}

fn plain(ran: Ran) -> Leg
    ensures { result ≡ plain_leg ran }
{
    Leg { ran, found: None }
}

// The submessage at the run's place. The bytes were checked before, so that one is always read there.
// On slices: its bytes may be the rebuilt ones, which are a field of `Stores`.
fn turn(
    sessions: &mut [SessionRow],
    streams: &mut [StreamRow],
    objects: &mut [Object],
    held: &[u8],
    out: &mut [u8],
    s: &[u8],
    f: Frame,
    m: Mode,
    r: Ran,
) -> Leg
    requires { f.room ≤ 9223372036854775807 }
    ensures { (result ≡ (led m f (rows sessions.old streams.old objects.old) held.now s.now r).leg)
        × (sessions.new ≡ (led m f (rows sessions.old streams.old objects.old) held.now s.now r).rows.sessions)
        × (streams.new ≡ (led m f (rows sessions.old streams.old objects.old) held.now s.now r).rows.streams)
        × (objects.new ≡ (led m f (rows sessions.old streams.old objects.old) held.now s.now r).rows.objects)
        × (out.new ≡ put_replies f.room out.old r.wrote (led m f (rows sessions.old streams.old objects.old) held.now s.now r).replies) }
{
    let c = Cursor { at: r.at };
    let p = read(s, c);
    let x = take_apart(p, s.len());
    let q = x.asked;
    let o = q.opening;
    let step = step_of(m, o);
    match step {
        Step::Greets => plain(greet(sessions, streams, out, f, r, q.key, x.at)),
        Step::Keeps => Leg {
            ran: passed(r, x.at),
            found: Some(x),
        },
        Step::Delivers => plain(deliver(sessions, streams, objects, held, out, s, f, r, x)),
        Step::Passes => plain(passed(r, x.at)),
    }
}

fn is_call(s: Stop) -> bool
    ensures { result ≡ is_call s }
{
    !matches!(s, Stop::Nothing)
}

pub(crate) fn goes_on(len: usize, r: Ran) -> bool
    ensures { result ≡ goes_on len r }
{
    !is_call(r.stop) && r.at < len
}

fn is_entering(m: Mode) -> bool
    ensures { result ≡ is_entering m }
{
    matches!(m, Mode::Entering)
}

fn has_entered(sessions: &[SessionRow], id: u8, m: Mode) -> bool
    ensures { result ≡ has_entered m sessions.now id }
{
    if is_entering(m) {
        return is_live(live_at(sessions, id));
    }
    false
}

fn leads_on(sessions: &[SessionRow], id: u8, m: Mode, len: usize, l: Leg) -> bool
    ensures { result ≡ leads_on m sessions.now id len l }
{
    if l.found.is_some() || has_entered(sessions, id, m) {
        return false;
    }
    goes_on(len, l.ran)
}

// On slices: its bytes may be the rebuilt ones, which are a field of `Stores`.
pub(crate) fn lead(
    sessions: &mut [SessionRow],
    streams: &mut [StreamRow],
    objects: &mut [Object],
    held: &[u8],
    out: &mut [u8],
    s: &[u8],
    f: Frame,
    m: Mode,
    start: Ran,
) -> Leg
    requires { f.room ≤ 9223372036854775807 }
    ensures { (result ≡ (leg_at m f held.now s.now start (rows sessions.old streams.old objects.old)).leg)
        × (sessions.new ≡ (leg_at m f held.now s.now start (rows sessions.old streams.old objects.old)).rows.sessions)
        × (streams.new ≡ (leg_at m f held.now s.now start (rows sessions.old streams.old objects.old)).rows.streams)
        × (objects.new ≡ (leg_at m f held.now s.now start (rows sessions.old streams.old objects.old)).rows.objects)
        × (out.new ≡ put_replies f.room out.old start.wrote (leg_at m f held.now s.now start (rows sessions.old streams.old objects.old)).replies) }
{
    let len = s.len();
    let mut l = plain(start);
    // A `while`: a submessage says where the next one begins, and whether the leg goes on.
    while leads_on(sessions, f.session_id, m, len, l) {
        let r = l.ran;
        l = turn(sessions, streams, objects, held, out, s, f, m, r);
    }
    l
}
