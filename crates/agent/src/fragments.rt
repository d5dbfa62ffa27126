// A FRAGMENT (document 02, W6): it gets no reply of its own; where it is the last one missing, the rebuilt bytes are read as
// submessages under the header of its datagram.
ghost use Rattle.std.specs.Prelude.{◌≡◌, ◌≤◌};
ghost use Rattle.agent.specs.Lent.{rebuilt_part};
ghost use Rattle.agent.specs.Run.{put_replies, entered_ran, inside_stop, left_ran, whole_len, gathers, gathered_len, whole_turned, fragment_turned};
ghost use Rattle.agent.specs.Stores.{stores_of, SamePlaces};

use crate::leg::{Mode, lead};
use crate::stores::Stores;
use crate::turn::{Frame, Ran, Stop, Taken, passed};
use codec::layouts::Span;
use codec::reading::part;
use codec::rebuilt::check_rebuilt;
use codec::refusals::Refusal;
use sessions::fragments::{Gathered, keep_fragment};
use sessions::table::touch;

// Before the first rebuilt submessage, in their own bytes.
fn entered(r: Ran) -> Ran
    ensures { result ≡ entered_ran r }
{
    Ran {
        at: 0,
        stop: Stop::Nothing,
        ..r
    }
}

// A call that a rebuilt submessage handed out keeps the place behind it.
fn inside_stop(stop: Stop, at: usize, end: usize) -> Stop
    ensures { result ≡ inside_stop stop at end }
{
    match stop {
        Stop::Nothing => Stop::Nothing,
        Stop::Call(number, task, call) => Stop::Inside(number, task, call, at, end),
        Stop::Inside(number, task, call, a, e) => Stop::Inside(number, task, call, a, e),
    }
}

// Behind the rebuilt submessages: on in the datagram, at its own place.
pub(crate) fn left(y: Ran, end: usize, at: usize) -> Ran
    ensures { result ≡ left_ran y end at }
{
    Ran {
        at,
        stop: inside_stop(y.stop, y.at, end),
        ..y
    }
}

// The first `n` rebuilt bytes, where as many lie in their place; else none.
pub(crate) fn rebuilt_part(rebuilt: &[u8], n: usize) -> &[u8]
    ensures { result.now ≡ rebuilt_part rebuilt.now n }
{
    part(rebuilt, Span { start: 0, len: n })
}

fn whole_len(g: Gathered) -> usize
    ensures { result ≡ whole_len g }
{
    match g {
        Gathered::Nothing | Gathered::Held(_) => 0,
        Gathered::Whole(n) => n,
    }
}

// The rebuilt submessages of the bytes that were made whole, unless these are refused: "On any of these no rebuilt submessage takes
// effect, none is answered, and the datagram's later submessages are handled."
fn work_off(stores: &mut Stores, out: &mut [u8], f: Frame, n: usize, r: Ran, at: usize) -> Ran
    requires { f.room ≤ 9223372036854775807 }
    ensures ran { result ≡ (whole_turned f (stores_of stores.old) n r at).ran }
    ensures stores { stores_of stores.new ≡ (whole_turned f (stores_of stores.old) n r at).tables }
    ensures out { out.new ≡ put_replies f.room out.old r.wrote (whole_turned f (stores_of stores.old) n r at).replies }
    ensures places { SamePlaces stores.old stores.new }
{
    let rebuilt = &mut *stores.rebuilt;
    let s = rebuilt_part(rebuilt, n);
    if check_rebuilt(s).is_ok() {
        let first = entered(r);
        let held = &mut *stores.held;
        let y = lead(
            stores.sessions,
            stores.streams,
            stores.objects,
            held,
            out,
            s,
            f,
            Mode::Rebuilt,
            first,
        );
        left(y.ran, n, at)
    } else {
        passed(r, at)
    }
}

// Touched like any other, then kept; the number of bytes that it makes whole.
fn gather(stores: &mut Stores, d: &[u8], f: Frame, took: Taken) -> usize
    ensures count { result ≡ gathered_len f (stores_of stores.old) d.now took }
    ensures stores { stores_of stores.new ≡ gathers f (stores_of stores.old) d.now took }
    ensures places { SamePlaces stores.old stores.new }
{
    let id = f.session_id;
    let _ = touch(stores.sessions, id, f.moment.time);
    let body = part(d, took.body);
    let q = took.asked;
    let g = keep_fragment(
        stores.sessions,
        stores.parts,
        stores.lengths,
        stores.rebuilt,
        id,
        q.first,
        q.second,
        body,
    );
    whole_len(g)
}

pub(crate) fn fragment(
    stores: &mut Stores,
    out: &mut [u8],
    d: &[u8],
    f: Frame,
    r: Ran,
    took: Taken,
) -> Ran
    requires { f.room ≤ 9223372036854775807 }
    ensures ran { result ≡ (fragment_turned f (stores_of stores.old) d.now r took).ran }
    ensures stores { stores_of stores.new ≡ (fragment_turned f (stores_of stores.old) d.now r took).tables }
    ensures out { out.new ≡ put_replies f.room out.old r.wrote (fragment_turned f (stores_of stores.old) d.now r took).replies }
    ensures places { SamePlaces stores.old stores.new }
{
    let n = gather(stores, d, f, took);
    work_off(stores, out, f, n, r, took.at)
}
