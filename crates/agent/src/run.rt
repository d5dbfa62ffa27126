// The submessages of a datagram in order, until a bridge call is handed out or the end: leg for leg, with the FRAGMENT behind each.
ghost use Rattle.std.specs.Prelude.{◌≡◌, ◌≤◌};
ghost use Rattle.agent.specs.Run.{put_replies, run_at};
ghost use Rattle.agent.specs.Legs.{kept_by};
ghost use Rattle.agent.specs.Stores.{stores_of, SamePlaces};

use crate::fragments::fragment;
use crate::leg::{Leg, Mode, goes_on, lead};
use crate::stores::Stores;
use crate::turn::{Frame, Ran};

// Behind a leg: the FRAGMENT that ended it, if one did.
fn keep(stores: &mut Stores, out: &mut [u8], d: &[u8], f: Frame, l: Leg) -> Ran
    requires { f.room ≤ 9223372036854775807 }
    ensures ran { result ≡ (kept_by l.found f d.now l.ran (stores_of stores.old)).ran }
    ensures stores { stores_of stores.new ≡ (kept_by l.found f d.now l.ran (stores_of stores.old)).tables }
    ensures out { out.new ≡ put_replies f.room out.old l.ran.wrote (kept_by l.found f d.now l.ran (stores_of stores.old)).replies }
    ensures places { SamePlaces stores.old stores.new }
{
    let found = l.found;
    let r = l.ran;
    match found {
        None => r,
        Some(took) => fragment(stores, out, d, f, r, took),
    }
}

pub(crate) fn run(stores: &mut Stores, out: &mut [u8], d: &[u8], f: Frame, start: Ran) -> Ran
    requires { f.room ≤ 9223372036854775807 }
    ensures ran { result ≡ (run_at f d.now start (stores_of stores.old)).ran }
    ensures stores { stores_of stores.new ≡ (run_at f d.now start (stores_of stores.old)).tables }
    ensures out { out.new ≡ put_replies f.room out.old start.wrote (run_at f d.now start (stores_of stores.old)).replies }
    ensures places { SamePlaces stores.old stores.new }
{
    let len = d.len();
    let mut r = start;
    // A `while`: a leg says where it ended, and whether a call was handed out.
    while goes_on(len, r) {
        let held = &mut *stores.held;
        let l = lead(
            stores.sessions,
            stores.streams,
            stores.objects,
            held,
            out,
            d,
            f,
            Mode::Datagram,
            r,
        );
        r = keep(stores, out, d, f, l);
    }
    r
}
