// The functions of the C interface, which cabi_c exports. Each is the agent's call on the agent that the record says; what
// can't be done is refused, and a refused call changes no byte of what was lent to it.
ghost use Rattle.std.specs.Prelude.{◌≡◌};
ghost use Rattle.sessions.specs.Need.{needed_for};
ghost use Rattle.sessions.specs.ObjectList.{list_of, list_out};
ghost use Rattle.agent.specs.Lent.{lent};
ghost use Rattle.hours.specs.Week.{first_open_of};
ghost use Rattle.cabi.specs.Answers.{outcome_as, listed_as, first_open_as, needed_as};
ghost use Rattle.cabi.specs.Record.{records_after};
ghost use Rattle.cabi.specs.Calls.{ready_as, ready_records, process_left, set_up_left, remove_answer, remove_rows, sweep_answer, sweep_rows, sweep_out};

use crate::answers::{counted_as, first_open_as, needed_as, outcome_as, refused_as, removed_as};
use crate::inputs::called;
use crate::record::{RecordRow, agent_at};
use crate::told::{keep_processed, keep_record, nothing_told};
use agent::agent::{evict_expired, first_open, list_objects, remove_session, setup};
use agent::process::{Processed, process};
use agent::state::{Agent, Given};
use codec::refusals::Refusal;
use sessions::need::documented_need;
use sessions::objects::Object;

// The documented need for `max_clients`, all tables and stores together.
pub fn xrce_need(max_clients: u64) -> u64
    ensures { result ≡ needed_as (needed_for max_clients) }
{
    needed_as(documented_need(max_clients as usize))
}

// What a call told, in the record, and its answer.
fn told(agent: &mut [RecordRow], p: Processed) -> u64
    ensures { (result ≡ outcome_as p.outcome) × (agent.new ≡ records_after agent.old p) }
{
    keep_processed(agent, p);
    outcome_as(p.outcome)
}

pub fn xrce_agent_process(
    agent: &mut [[u64; 22]],
    sessions: &mut [[u64; 8]],
    streams: &mut [[u16; 35]],
    objects: &mut [Object],
    held: &mut [u8],
    parts: &mut [u8],
    lengths: &mut [u32],
    rebuilt: &mut [u8],
    hours: &[u8],
    out: &mut [u8],
    datagram: &[u8],
    sample: &[u8],
    input: u8,
    time: u64,
    day: u8,
    minute: u16,
    handle: u32,
) -> u64
    ensures { (result ≡ (process_left agent.old (lent sessions.old streams.old objects.old held.old parts.old lengths.old rebuilt.old) hours.now out.old datagram.now sample.now input time day minute handle).answer)
        × (agent.new ≡ (process_left agent.old (lent sessions.old streams.old objects.old held.old parts.old lengths.old rebuilt.old) hours.now out.old datagram.now sample.now input time day minute handle).records)
        × (sessions.new ≡ (process_left agent.old (lent sessions.old streams.old objects.old held.old parts.old lengths.old rebuilt.old) hours.now out.old datagram.now sample.now input time day minute handle).tables.sessions)
        × (streams.new ≡ (process_left agent.old (lent sessions.old streams.old objects.old held.old parts.old lengths.old rebuilt.old) hours.now out.old datagram.now sample.now input time day minute handle).tables.streams)
        × (objects.new ≡ (process_left agent.old (lent sessions.old streams.old objects.old held.old parts.old lengths.old rebuilt.old) hours.now out.old datagram.now sample.now input time day minute handle).tables.objects)
        × (held.new ≡ (process_left agent.old (lent sessions.old streams.old objects.old held.old parts.old lengths.old rebuilt.old) hours.now out.old datagram.now sample.now input time day minute handle).tables.held)
        × (parts.new ≡ (process_left agent.old (lent sessions.old streams.old objects.old held.old parts.old lengths.old rebuilt.old) hours.now out.old datagram.now sample.now input time day minute handle).tables.parts)
        × (lengths.new ≡ (process_left agent.old (lent sessions.old streams.old objects.old held.old parts.old lengths.old rebuilt.old) hours.now out.old datagram.now sample.now input time day minute handle).tables.lengths)
        × (rebuilt.new ≡ (process_left agent.old (lent sessions.old streams.old objects.old held.old parts.old lengths.old rebuilt.old) hours.now out.old datagram.now sample.now input time day minute handle).tables.rebuilt)
        × (out.new ≡ (process_left agent.old (lent sessions.old streams.old objects.old held.old parts.old lengths.old rebuilt.old) hours.now out.old datagram.now sample.now input time day minute handle).out) }
{
    match called(agent, input, handle) {
        Ok((a, i)) => {
            // With an answer it isn't looked at (document 02, W8).
            let given = Given { time, day, minute };
            let p = process(
                sessions, streams, objects, held, parts, lengths, rebuilt, hours, out, datagram,
                sample, a, i, given,
            );
            told(agent, p)
        }
        Err(x) => refused_as(x),
    }
}

// What set-up leaves in the record, and its answer.
fn told_ready(agent: &mut [RecordRow], s: Result<Agent, Refusal>) -> u64
    ensures { (result ≡ ready_as s) × (agent.new ≡ ready_records agent.old s) }
{
    match s {
        Ok(a) => {
            keep_record(agent, a.into(), nothing_told(0));
            0
        }
        Err(x) => refused_as(x),
    }
}

pub fn xrce_agent_setup(
    agent: &mut [[u64; 22]],
    sessions: &mut [[u64; 8]],
    streams: &mut [[u16; 35]],
    objects: &mut [Object],
    held: &[u8],
    parts: &[u8],
    lengths: &[u32],
    rebuilt: &[u8],
    hours: &mut [u8],
    windows: &[[u16; 3]],
    max_clients: u64,
    timeout_ms: u64,
) -> u64
    ensures { (result ≡ (set_up_left agent.old (lent sessions.old streams.old objects.old held.now parts.now lengths.now rebuilt.now) hours.old windows.now max_clients timeout_ms).answer)
        × (agent.new ≡ (set_up_left agent.old (lent sessions.old streams.old objects.old held.now parts.now lengths.now rebuilt.now) hours.old windows.now max_clients timeout_ms).records)
        × (sessions.new ≡ (set_up_left agent.old (lent sessions.old streams.old objects.old held.now parts.now lengths.now rebuilt.now) hours.old windows.now max_clients timeout_ms).tables.sessions)
        × (streams.new ≡ (set_up_left agent.old (lent sessions.old streams.old objects.old held.now parts.now lengths.now rebuilt.now) hours.old windows.now max_clients timeout_ms).tables.streams)
        × (objects.new ≡ (set_up_left agent.old (lent sessions.old streams.old objects.old held.now parts.now lengths.now rebuilt.now) hours.old windows.now max_clients timeout_ms).tables.objects)
        × (hours.new ≡ (set_up_left agent.old (lent sessions.old streams.old objects.old held.now parts.now lengths.now rebuilt.now) hours.old windows.now max_clients timeout_ms).hours) }
{
    if agent.is_empty() {
        return refused_as(Refusal::OverLimit);
    }
    let s = setup(
        sessions,
        streams,
        objects,
        held,
        parts,
        lengths,
        rebuilt,
        hours,
        windows,
        max_clients as usize,
        timeout_ms,
    );
    told_ready(agent, s)
}

pub fn xrce_agent_remove(agent: &[[u64; 22]], sessions: &mut [[u64; 8]], id: u8) -> u64
    ensures { (result ≡ remove_answer agent.now sessions.old id)
        × (sessions.new ≡ remove_rows agent.now sessions.old id) }
{
    match agent_at(agent) {
        Ok(a) => removed_as(remove_session(sessions, a, id)),
        Err(x) => refused_as(x),
    }
}

pub fn xrce_agent_sweep(
    agent: &[[u64; 22]],
    sessions: &mut [[u64; 8]],
    out: &mut [u8],
    time: u64,
) -> u64
    ensures { (result ≡ sweep_answer agent.now sessions.old time out.old)
        × (sessions.new ≡ sweep_rows agent.now sessions.old time out.old)
        × (out.new ≡ sweep_out agent.now sessions.old time out.old) }
{
    match agent_at(agent) {
        Ok(a) => counted_as(evict_expired(sessions, out, a, time)),
        Err(x) => refused_as(x),
    }
}

// The listing takes no record: it reads the tables alone, whether a call is open or not.
pub fn xrce_agent_list(sessions: &[[u64; 8]], objects: &[Object], out: &mut [u16], id: u8) -> u64
    ensures { (result ≡ listed_as (list_of sessions.now objects.now id out.old))
        × (out.new ≡ list_out sessions.now objects.now id out.old) }
{
    counted_as(list_objects(sessions, objects, out, id))
}

// The first open minute (document 02, W8) is found in what set-up left of the windows: this takes no record either, and
// answers whether a call is open or not.
pub fn xrce_agent_first_open(hours: &[u8], day: u8, minute: u16) -> u64
    ensures { result ≡ first_open_as (first_open_of hours.now day minute) }
{
    first_open_as(first_open(hours, day, minute))
}
