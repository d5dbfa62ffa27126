// What a call does once nothing refuses it: the answer's part, if it is one, with the rebuilt submessages that waited for it, then
// the submessages behind it.
ghost use Rattle.std.specs.Prelude.{◌≡◌};
ghost use Rattle.agent.specs.Run.{put_replies, left_ran};
ghost use Rattle.agent.specs.Host.{Prepared, resumed, performed, first_ran};
ghost use Rattle.agent.specs.Legs.{plain_performed};
ghost use Rattle.agent.specs.Stores.{stores_of, SamePlaces};

use crate::answers::begin;
use crate::fragments::{left, rebuilt_part};
use crate::judge::Start;
use crate::leg::{Mode, lead};
use crate::run::run;
use crate::stores::Stores;
use crate::turn::{Ran, Stop};

fn first_ran(start: Start, wrote: usize) -> Ran
    ensures { result ≡ first_ran start wrote }
{
    Ran {
        next: start.next,
        at: start.left_at,
        wrote,
        stop: Stop::Nothing,
    }
}

// Where none waits, on in the datagram at once.
fn behind(start: Start, wrote: usize) -> Ran
    ensures { result ≡ left_ran (first_ran start wrote) start.left_end start.at }
{
    Ran {
        next: start.next,
        at: start.at,
        wrote,
        stop: Stop::Nothing,
    }
}

// A call without rebuilt submessages: the answer's part, if it is one, and one leg. Nearly every call is such a one, so no loop stands round its leg.
pub(crate) fn perform_plain(
    stores: &mut Stores,
    out: &mut [u8],
    d: &[u8],
    sample: &[u8],
    start: Start,
) -> Ran
    requires { Prepared start sample.now }
    ensures ran { result ≡ (plain_performed start (stores_of stores.old) d.now sample.now).ran }
    ensures stores { stores_of stores.new ≡ (plain_performed start (stores_of stores.old) d.now sample.now).tables }
    ensures out { out.new ≡ put_replies start.frame.room out.old 0 (plain_performed start (stores_of stores.old) d.now sample.now).replies }
    ensures places { SamePlaces stores.old stores.new }
{
    // A datagram pays for no call of `begin`.
    let wrote = match start.resumes {
        Some(_) => begin(stores, out, sample, start),
        None => 0,
    };
    let first = behind(start, wrote);
    let frame = start.frame;
    let held = &mut *stores.held;
    let l = lead(
        stores.sessions,
        stores.streams,
        stores.objects,
        held,
        out,
        d,
        frame,
        Mode::Datagram,
        first,
    );
    l.ran
}

// The answer's part, and the rebuilt submessages that waited for it; then on in the datagram.
pub(crate) fn resume(stores: &mut Stores, out: &mut [u8], sample: &[u8], start: Start) -> Ran
    requires { Prepared start sample.now }
    ensures ran { result ≡ (resumed start (stores_of stores.old) sample.now).ran }
    ensures stores { stores_of stores.new ≡ (resumed start (stores_of stores.old) sample.now).tables }
    ensures out { out.new ≡ put_replies start.frame.room out.old 0 (resumed start (stores_of stores.old) sample.now).replies }
    ensures places { SamePlaces stores.old stores.new }
{
    let wrote = begin(stores, out, sample, start);
    let end = start.left_end;
    if start.left_at == end {
        return behind(start, wrote);
    }
    let first = first_ran(start, wrote);
    let frame = start.frame;
    let rebuilt = &mut *stores.rebuilt;
    let s = rebuilt_part(rebuilt, end);
    let held = &mut *stores.held;
    let y = lead(
        stores.sessions,
        stores.streams,
        stores.objects,
        held,
        out,
        s,
        frame,
        Mode::Rebuilt,
        first,
    );
    left(y.ran, end, start.at)
}

pub(crate) fn perform(
    stores: &mut Stores,
    out: &mut [u8],
    d: &[u8],
    sample: &[u8],
    start: Start,
) -> Ran
    requires { Prepared start sample.now }
    ensures ran { result ≡ (performed start (stores_of stores.old) d.now sample.now).ran }
    ensures stores { stores_of stores.new ≡ (performed start (stores_of stores.old) d.now sample.now).tables }
    ensures out { out.new ≡ put_replies start.frame.room out.old 0 (performed start (stores_of stores.old) d.now sample.now).replies }
    ensures places { SamePlaces stores.old stores.new }
{
    let r = resume(stores, out, sample, start);
    run(stores, out, d, start.frame, r)
}
