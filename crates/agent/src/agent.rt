// The host's seven entry points. A datagram and an answer take the `Agent` by value and hand it back, a removal and a sweep leave
// it as it is, a listing and the question for the first open minute need none; tables and output are lent, and a refused call changes neither.
ghost use Rattle.std.specs.Prelude.{◌≡◌, length};
ghost use Rattle.hours.specs.Windows.{windows_of};
ghost use Rattle.hours.specs.Week.{kept_hours, first_open_of};
ghost use Rattle.sessions.specs.Setup.{leaves};
ghost use Rattle.sessions.specs.Calls.{set_up_tables};
ghost use Rattle.sessions.specs.ObjectList.{list_of, list_out};
ghost use Rattle.agent.specs.Lent.{lent};
ghost use Rattle.agent.specs.Host.{set_up_judged, set_up_as, incoming_of, answer_of, idle_of, removed_as, removed_by, removed_rows, swept_by, swept_rows, swept_out};

use crate::judge::{Input, sound_record};
use crate::process::{Processed, process};
use crate::state::{Agent, Given};
use codec::refusals::Refusal;
use hours::week;
use hours::week::keep_windows;
use hours::windows::{WindowRow, check_windows};
use moves::proxy::BridgeAnswer;
use sessions::need::stores_fit;
use sessions::objects::Object;
use sessions::setup::set_up;
use sessions::stream_rows::StreamRow;
use sessions::table::SessionRow;
use sessions::{object_list, sweep, table};

// 16 of every store, then 19, before anything is written. An empty agent over the lent tables, whatever stood in them; of the stores of held messages and
// fragments and of the place of rebuilt bytes only their lengths are asked. What the windows open is kept in `hours` until
// the next set-up (document 02, W8).
#[tactic(auto, unfolding(crate::specs::Host::set_up_judged, sessions::specs::Setup::set_up_of))]
pub fn setup(
    sessions: &mut [SessionRow],
    streams: &mut [StreamRow],
    objects: &mut [Object],
    held: &[u8],
    parts: &[u8],
    lengths: &[u32],
    rebuilt: &[u8],
    hours: &mut [u8],
    windows: &[WindowRow],
    max_clients: usize,
    timeout_ms: u64,
) -> Result<Agent, Refusal>
    ensures { (result ≡ set_up_as (set_up_judged (lent sessions.old streams.old objects.old held.now parts.now lengths.now rebuilt.now) (length hours.old) (windows_of windows.now) max_clients) max_clients timeout_ms)
        × (sessions.new ≡ (set_up_tables (set_up_judged (lent sessions.old streams.old objects.old held.now parts.now lengths.now rebuilt.now) (length hours.old) (windows_of windows.now) max_clients) (lent sessions.old streams.old objects.old held.now parts.now lengths.now rebuilt.now)).sessions)
        × (streams.new ≡ (set_up_tables (set_up_judged (lent sessions.old streams.old objects.old held.now parts.now lengths.now rebuilt.now) (length hours.old) (windows_of windows.now) max_clients) (lent sessions.old streams.old objects.old held.now parts.now lengths.now rebuilt.now)).streams)
        × (objects.new ≡ (set_up_tables (set_up_judged (lent sessions.old streams.old objects.old held.now parts.now lengths.now rebuilt.now) (length hours.old) (windows_of windows.now) max_clients) (lent sessions.old streams.old objects.old held.now parts.now lengths.now rebuilt.now)).objects)
        × (hours.new ≡ leaves (set_up_judged (lent sessions.old streams.old objects.old held.now parts.now lengths.now rebuilt.now) (length hours.old) (windows_of windows.now) max_clients) (kept_hours (windows_of windows.now) hours.old) hours.old) }
{
    let fit = stores_fit(
        sessions.len(),
        streams.len(),
        objects.len(),
        held.len(),
        parts.len(),
        lengths.len(),
        rebuilt.len(),
        max_clients,
    );
    if !fit {
        return Err(Refusal::OverLimit);
    }
    check_windows(windows, hours.len())?;
    keep_windows(hours, windows);
    let next = set_up(
        sessions,
        streams,
        objects,
        held.len(),
        parts.len(),
        lengths.len(),
        rebuilt.len(),
        max_clients,
    )?;
    Ok(Agent {
        max_clients,
        timeout_ms,
        next,
        waits: None,
    })
}

// A datagram: its replies stand one behind the other at the start of the output.
pub fn process_incoming(
    sessions: &mut [SessionRow],
    streams: &mut [StreamRow],
    objects: &mut [Object],
    held: &mut [u8],
    parts: &mut [u8],
    lengths: &mut [u32],
    rebuilt: &mut [u8],
    hours: &[u8],
    out: &mut [u8],
    datagram: &[u8],
    agent: Agent,
    given: Given,
) -> Processed
    ensures { (result ≡ (incoming_of agent (lent sessions.old streams.old objects.old held.old parts.old lengths.old rebuilt.old) hours.now out.old datagram.now given).processed)
        × (sessions.new ≡ (incoming_of agent (lent sessions.old streams.old objects.old held.old parts.old lengths.old rebuilt.old) hours.now out.old datagram.now given).tables.sessions)
        × (streams.new ≡ (incoming_of agent (lent sessions.old streams.old objects.old held.old parts.old lengths.old rebuilt.old) hours.now out.old datagram.now given).tables.streams)
        × (objects.new ≡ (incoming_of agent (lent sessions.old streams.old objects.old held.old parts.old lengths.old rebuilt.old) hours.now out.old datagram.now given).tables.objects)
        × (held.new ≡ (incoming_of agent (lent sessions.old streams.old objects.old held.old parts.old lengths.old rebuilt.old) hours.now out.old datagram.now given).tables.held)
        × (parts.new ≡ (incoming_of agent (lent sessions.old streams.old objects.old held.old parts.old lengths.old rebuilt.old) hours.now out.old datagram.now given).tables.parts)
        × (lengths.new ≡ (incoming_of agent (lent sessions.old streams.old objects.old held.old parts.old lengths.old rebuilt.old) hours.now out.old datagram.now given).tables.lengths)
        × (rebuilt.new ≡ (incoming_of agent (lent sessions.old streams.old objects.old held.old parts.old lengths.old rebuilt.old) hours.now out.old datagram.now given).tables.rebuilt)
        × (out.new ≡ (incoming_of agent (lent sessions.old streams.old objects.old held.old parts.old lengths.old rebuilt.old) hours.now out.old datagram.now given).out) }
{
    // A datagram is processed without a look at a sample.
    let none = [0u8; 2];
    process(
        sessions,
        streams,
        objects,
        held,
        parts,
        lengths,
        rebuilt,
        hours,
        out,
        datagram,
        &none,
        agent,
        Input::Datagram,
        given,
    )
}

// The bridge's answer to the open call, with the sample's bytes, and the call's datagram lent again.
pub fn process_answer(
    sessions: &mut [SessionRow],
    streams: &mut [StreamRow],
    objects: &mut [Object],
    held: &mut [u8],
    parts: &mut [u8],
    lengths: &mut [u32],
    rebuilt: &mut [u8],
    out: &mut [u8],
    datagram: &[u8],
    sample: &[u8],
    agent: Agent,
    answer: BridgeAnswer,
) -> Processed
    ensures { (result ≡ (answer_of agent (lent sessions.old streams.old objects.old held.old parts.old lengths.old rebuilt.old) out.old datagram.now sample.now answer).processed)
        × (sessions.new ≡ (answer_of agent (lent sessions.old streams.old objects.old held.old parts.old lengths.old rebuilt.old) out.old datagram.now sample.now answer).tables.sessions)
        × (streams.new ≡ (answer_of agent (lent sessions.old streams.old objects.old held.old parts.old lengths.old rebuilt.old) out.old datagram.now sample.now answer).tables.streams)
        × (objects.new ≡ (answer_of agent (lent sessions.old streams.old objects.old held.old parts.old lengths.old rebuilt.old) out.old datagram.now sample.now answer).tables.objects)
        × (held.new ≡ (answer_of agent (lent sessions.old streams.old objects.old held.old parts.old lengths.old rebuilt.old) out.old datagram.now sample.now answer).tables.held)
        × (parts.new ≡ (answer_of agent (lent sessions.old streams.old objects.old held.old parts.old lengths.old rebuilt.old) out.old datagram.now sample.now answer).tables.parts)
        × (lengths.new ≡ (answer_of agent (lent sessions.old streams.old objects.old held.old parts.old lengths.old rebuilt.old) out.old datagram.now sample.now answer).tables.lengths)
        × (rebuilt.new ≡ (answer_of agent (lent sessions.old streams.old objects.old held.old parts.old lengths.old rebuilt.old) out.old datagram.now sample.now answer).tables.rebuilt)
        × (out.new ≡ (answer_of agent (lent sessions.old streams.old objects.old held.old parts.old lengths.old rebuilt.old) out.old datagram.now sample.now answer).out) }
{
    // Its datagram's minute was looked up when it came.
    let none = [0u8; 2];
    let given = Given {
        time: 0,
        day: 0,
        minute: 0,
    };
    process(
        sessions,
        streams,
        objects,
        held,
        parts,
        lengths,
        rebuilt,
        &none,
        out,
        datagram,
        sample,
        agent,
        Input::Answer(answer),
        given,
    )
}

// 15: "While a bridge call is open, .. removals and sweeps are out of turn"; then 16, of the record.
fn is_idle(agent: Agent) -> Result<(), Refusal>
    ensures { result ≡ idle_of agent.waits agent }
{
    if agent.waits.is_some() {
        return Err(Refusal::OutOfTurn);
    }
    if !sound_record(agent) {
        return Err(Refusal::OverLimit);
    }
    Ok(())
}

// Ends a session; its objects are forgotten without a bridge call.
pub fn remove_session(sessions: &mut [SessionRow], agent: Agent, id: u8) -> Result<bool, Refusal>
    ensures { (result ≡ removed_by (idle_of agent.waits agent) sessions.old id)
        × (sessions.new ≡ removed_rows (idle_of agent.waits agent) sessions.old id) }
{
    is_idle(agent)?;
    table::remove(sessions, id)
}

// A sweep: ends the sessions that are expired, and lists their ids ascending at the start of the output.
pub fn evict_expired(
    sessions: &mut [SessionRow],
    out: &mut [u8],
    agent: Agent,
    time: u64,
) -> Result<usize, Refusal>
    ensures { (result ≡ swept_by (idle_of agent.waits agent) agent sessions.old time out.old)
        × (sessions.new ≡ swept_rows (idle_of agent.waits agent) agent sessions.old time out.old)
        × (out.new ≡ swept_out (idle_of agent.waits agent) agent sessions.old time out.old) }
{
    is_idle(agent)?;
    sweep::evict_expired(sessions, time, agent.timeout_ms, out)
}

// The listing of a session (document 02, W3): the numbers of its objects, dependants before what they depend on, at the start of the output. It
// only reads, so that it is never out of turn.
pub fn list_objects(
    sessions: &[SessionRow],
    objects: &[Object],
    out: &mut [u16],
    id: u8,
) -> Result<usize, Refusal>
    ensures { (result ≡ list_of sessions.now objects.now id out.old)
        × (out.new ≡ list_out sessions.now objects.now id out.old) }
{
    object_list::list_objects(sessions, objects, id, out)
}

// The first open minute at or after one, round the week (document 02, W8). It only reads, so that it is never out of turn.
pub fn first_open(hours: &[u8], day: u8, minute: u16) -> Result<Option<(u8, u16)>, Refusal>
    ensures { result ≡ first_open_of hours.now day minute }
{
    week::first_open(hours, day, minute)
}
