// A datagram or an answer, whole: judged, run, and 13 last.
ghost use Rattle.std.specs.Prelude.{◌≡◌, true, ◌≤◌, ltb, length};
ghost use Rattle.agent.specs.Lent.{lent};
ghost use Rattle.agent.specs.Run.{put_replies};
ghost use Rattle.agent.specs.Host.{outcome_of, waits_of, finished_of, refused_of, roomy, unbound, needed_of, Prepared, LongEnough, performed, finish, process_of};
ghost use Rattle.agent.specs.Stores.{stores_of, SamePlaces};

use crate::bound::{is_roomy, is_spared, is_unbound};
use crate::dry::dry;
use crate::judge::{Input, Start, judge};
use crate::perform::{perform, perform_plain};
use crate::state::{Agent, Given, Pending};
use crate::stores::Stores;
use crate::turn::{Ran, Stop};
use codec::refusals::Refusal;
use moves::proxy::BridgeCall;
use sessions::objects::Object;
use sessions::stream_rows::StreamRow;
use sessions::table::SessionRow;

// The bytes replied, at the start of the output; the same with a call handed out.
#[derive(Clone, Copy, Debug, PartialEq, Eq)]
pub enum Outcome {
    Replied(usize),
    Called(BridgeCall, usize),
}

#[derive(Clone, Copy, Debug, PartialEq, Eq)]
pub struct Processed {
    pub agent: Agent,
    pub outcome: Result<Outcome, Refusal>,
}

fn refused(agent: Agent, x: Refusal) -> Processed
    ensures { result ≡ refused_of agent x }
{
    Processed {
        agent,
        outcome: Err(x),
    }
}

fn outcome_of(ran: Ran) -> Result<Outcome, Refusal>
    ensures { result ≡ outcome_of ran.stop ran.wrote }
{
    match ran.stop {
        Stop::Nothing => Ok(Outcome::Replied(ran.wrote)),
        Stop::Call(_, _, call) | Stop::Inside(_, _, call, _, _) => {
            Ok(Outcome::Called(call, ran.wrote))
        }
    }
}

fn waits_of(s: Start, ran: Ran) -> Option<Pending>
    ensures { result ≡ waits_of s.frame ran.stop ran.at }
{
    let (number, task, left_at, left_end) = match ran.stop {
        Stop::Nothing => return None,
        Stop::Call(number, task, _) => (number, task, 0, 0),
        Stop::Inside(number, task, _, left_at, left_end) => (number, task, left_at, left_end),
    };
    let frame = s.frame;
    Some(Pending {
        session_id: frame.session_id,
        stream_id: frame.stream_id,
        number,
        task,
        at: ran.at,
        moment: frame.moment,
        left_at,
        left_end,
    })
}

fn finished(agent: Agent, s: Start, ran: Ran) -> Processed
    ensures { result ≡ finished_of agent s ran }
{
    let after = Agent {
        next: ran.next,
        waits: waits_of(s, ran),
        ..agent
    };
    Processed {
        agent: after,
        outcome: outcome_of(ran),
    }
}

// Whether a bound says that the output has room: of a call that may handle rebuilt submessages, or of any other.
fn is_enough(
    sessions: &[SessionRow],
    room: usize,
    d: &[u8],
    start: Start,
    n: usize,
    sample: usize,
    may_rebuild: bool,
) -> bool
    requires { unbound start d.now ≡ may_rebuild }
    ensures { result ≡ roomy room start sessions.now n d.now sample }
{
    if may_rebuild {
        is_spared(sessions, room, d, start, n, sample)
    } else {
        is_roomy(room, d, start, n, sample)
    }
}

// How many bytes the replies take, 0 where a bound says that there is room.
fn needed(stores: &mut Stores, d: &[u8], sample: &[u8], start: Start, enough: bool) -> usize
    requires prepared { Prepared start sample.now }
    requires long { LongEnough (stores_of stores.old) }
    ensures wrote { result ≡ needed_of enough (performed start (stores_of stores.old) d.now sample.now).ran.wrote }
    ensures stores { stores_of stores.new ≡ stores_of stores.old }
    ensures places { SamePlaces stores.old stores.new }
{
    if enough {
        0
    } else {
        dry(stores, d, sample, start)
    }
}

// The call itself: one leg, where it can't handle rebuilt submessages.
fn act(
    stores: &mut Stores,
    out: &mut [u8],
    d: &[u8],
    sample: &[u8],
    start: Start,
    may_rebuild: bool,
) -> Ran
    requires prepared { Prepared start sample.now }
    requires bound { unbound start d.now ≡ may_rebuild }
    ensures ran { result ≡ (performed start (stores_of stores.old) d.now sample.now).ran }
    ensures stores { stores_of stores.new ≡ (performed start (stores_of stores.old) d.now sample.now).tables }
    ensures out { out.new ≡ put_replies start.frame.room out.old 0 (performed start (stores_of stores.old) d.now sample.now).replies }
    ensures places { SamePlaces stores.old stores.new }
{
    if may_rebuild {
        perform(stores, out, d, sample, start)
    } else {
        perform_plain(stores, out, d, sample, start)
    }
}

// 13, last.
fn go(
    stores: &mut Stores,
    out: &mut [u8],
    d: &[u8],
    sample: &[u8],
    agent: Agent,
    start: Start,
    n: usize,
) -> Processed
    requires prepared { Prepared start sample.now }
    requires room { start.frame.room ≡ length out.old }
    requires thirteen { ltb (length out.old) (needed_of (roomy (length out.old) start stores.old.sessions.now n d.now (length sample.now)) (performed start (stores_of stores.old) d.now sample.now).ran.wrote) ≡ ltb (length out.old) (performed start (stores_of stores.old) d.now sample.now).ran.wrote }
    requires long { LongEnough (stores_of stores.old) }
    ensures processed { result ≡ (finish agent (stores_of stores.old) out.old start (performed start (stores_of stores.old) d.now sample.now)).processed }
    ensures stores { stores_of stores.new ≡ (finish agent (stores_of stores.old) out.old start (performed start (stores_of stores.old) d.now sample.now)).tables }
    ensures out { out.new ≡ (finish agent (stores_of stores.old) out.old start (performed start (stores_of stores.old) d.now sample.now)).out }
    ensures places { SamePlaces stores.old stores.new }
{
    let room = out.len();
    let long = sample.len();
    let may_rebuild = is_unbound(d, start);
    let sessions = &mut *stores.sessions;
    let enough = is_enough(sessions, room, d, start, n, long, may_rebuild);
    let need = needed(stores, d, sample, start, enough);
    if room < need {
        refused(agent, Refusal::OutputTooShort)
    } else {
        let ran = act(stores, out, d, sample, start, may_rebuild);
        finished(agent, start, ran)
    }
}

// Judged, and where nothing refuses the call, done.
fn decide(
    stores: &mut Stores,
    hours: &[u8],
    out: &mut [u8],
    d: &[u8],
    sample: &[u8],
    agent: Agent,
    input: Input,
    given: Given,
) -> Processed
    ensures processed { result ≡ (process_of agent (stores_of stores.old) hours.now out.old d.now sample.now input given).processed }
    ensures stores { stores_of stores.new ≡ (process_of agent (stores_of stores.old) hours.now out.old d.now sample.now input given).tables }
    ensures out { out.new ≡ (process_of agent (stores_of stores.old) hours.now out.old d.now sample.now input given).out }
    ensures places { SamePlaces stores.old stores.new }
{
    let j = judge(
        stores,
        hours,
        d,
        agent,
        input,
        given,
        sample.len(),
        out.len(),
    );
    match j {
        Ok((start, n)) => go(stores, out, d, sample, agent, start, n),
        Err(why) => refused(agent, why),
    }
}

// With a datagram `given` is what the host gives with it; an answer's was looked at when its datagram came.
pub fn process(
    sessions: &mut [SessionRow],
    streams: &mut [StreamRow],
    objects: &mut [Object],
    held: &mut [u8],
    parts: &mut [u8],
    lengths: &mut [u32],
    rebuilt: &mut [u8],
    hours: &[u8],
    out: &mut [u8],
    d: &[u8],
    sample: &[u8],
    agent: Agent,
    input: Input,
    given: Given,
) -> Processed
    ensures { (result ≡ (process_of agent (lent sessions.old streams.old objects.old held.old parts.old lengths.old rebuilt.old) hours.now out.old d.now sample.now input given).processed)
        × (sessions.new ≡ (process_of agent (lent sessions.old streams.old objects.old held.old parts.old lengths.old rebuilt.old) hours.now out.old d.now sample.now input given).tables.sessions)
        × (streams.new ≡ (process_of agent (lent sessions.old streams.old objects.old held.old parts.old lengths.old rebuilt.old) hours.now out.old d.now sample.now input given).tables.streams)
        × (objects.new ≡ (process_of agent (lent sessions.old streams.old objects.old held.old parts.old lengths.old rebuilt.old) hours.now out.old d.now sample.now input given).tables.objects)
        × (held.new ≡ (process_of agent (lent sessions.old streams.old objects.old held.old parts.old lengths.old rebuilt.old) hours.now out.old d.now sample.now input given).tables.held)
        × (parts.new ≡ (process_of agent (lent sessions.old streams.old objects.old held.old parts.old lengths.old rebuilt.old) hours.now out.old d.now sample.now input given).tables.parts)
        × (lengths.new ≡ (process_of agent (lent sessions.old streams.old objects.old held.old parts.old lengths.old rebuilt.old) hours.now out.old d.now sample.now input given).tables.lengths)
        × (rebuilt.new ≡ (process_of agent (lent sessions.old streams.old objects.old held.old parts.old lengths.old rebuilt.old) hours.now out.old d.now sample.now input given).tables.rebuilt)
        × (out.new ≡ (process_of agent (lent sessions.old streams.old objects.old held.old parts.old lengths.old rebuilt.old) hours.now out.old d.now sample.now input given).out) }
{
    let mut stores = Stores {
        sessions,
        streams,
        objects,
        held,
        parts,
        lengths,
        rebuilt,
    };
    decide(&mut stores, hours, out, d, sample, agent, input, given)
}
