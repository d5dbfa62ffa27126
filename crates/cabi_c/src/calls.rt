// The exports of cabi's `calls`: each is that function, with its clauses.
ghost use Rattle.std.specs.Prelude.{◌≡◌};
ghost use Rattle.sessions.specs.Need.{needed_for};
ghost use Rattle.sessions.specs.ObjectList.{list_of, list_out};
ghost use Rattle.agent.specs.Lent.{lent};
ghost use Rattle.hours.specs.Week.{first_open_of};
ghost use Rattle.cabi.specs.Answers.{listed_as, first_open_as, needed_as};
ghost use Rattle.cabi.specs.Calls.{process_left, set_up_left, remove_answer, remove_rows, sweep_answer, sweep_rows, sweep_out};

use sessions::objects::Object;

#[unsafe(no_mangle)]
pub extern "C" fn xrce_need(max_clients: u64) -> u64
    ensures { result ≡ needed_as (needed_for max_clients) }
{
    cabi::calls::xrce_need(max_clients)
}

#[unsafe(no_mangle)]
pub extern "C" fn xrce_agent_process(
    agent: &mut [[u64; 22]],
    sessions: &mut [[u64; 8]],
    streams: &mut [[u16; 35]],
    objects: &mut [Object],
    held: &mut [u8],
    parts: &mut [u8],
    lengths: &mut [u32],
    rebuilt: &mut [u8],
    hours: &[u8],
    out: &mut [u8],
    datagram: &[u8],
    sample: &[u8],
    input: u8,
    time: u64,
    day: u8,
    minute: u16,
    handle: u32,
) -> u64
    ensures { (result ≡ (process_left agent.old (lent sessions.old streams.old objects.old held.old parts.old lengths.old rebuilt.old) hours.now out.old datagram.now sample.now input time day minute handle).answer)
        × (agent.new ≡ (process_left agent.old (lent sessions.old streams.old objects.old held.old parts.old lengths.old rebuilt.old) hours.now out.old datagram.now sample.now input time day minute handle).records)
        × (sessions.new ≡ (process_left agent.old (lent sessions.old streams.old objects.old held.old parts.old lengths.old rebuilt.old) hours.now out.old datagram.now sample.now input time day minute handle).tables.sessions)
        × (streams.new ≡ (process_left agent.old (lent sessions.old streams.old objects.old held.old parts.old lengths.old rebuilt.old) hours.now out.old datagram.now sample.now input time day minute handle).tables.streams)
        × (objects.new ≡ (process_left agent.old (lent sessions.old streams.old objects.old held.old parts.old lengths.old rebuilt.old) hours.now out.old datagram.now sample.now input time day minute handle).tables.objects)
        × (held.new ≡ (process_left agent.old (lent sessions.old streams.old objects.old held.old parts.old lengths.old rebuilt.old) hours.now out.old datagram.now sample.now input time day minute handle).tables.held)
        × (parts.new ≡ (process_left agent.old (lent sessions.old streams.old objects.old held.old parts.old lengths.old rebuilt.old) hours.now out.old datagram.now sample.now input time day minute handle).tables.parts)
        × (lengths.new ≡ (process_left agent.old (lent sessions.old streams.old objects.old held.old parts.old lengths.old rebuilt.old) hours.now out.old datagram.now sample.now input time day minute handle).tables.lengths)
        × (rebuilt.new ≡ (process_left agent.old (lent sessions.old streams.old objects.old held.old parts.old lengths.old rebuilt.old) hours.now out.old datagram.now sample.now input time day minute handle).tables.rebuilt)
        × (out.new ≡ (process_left agent.old (lent sessions.old streams.old objects.old held.old parts.old lengths.old rebuilt.old) hours.now out.old datagram.now sample.now input time day minute handle).out) }
{
    cabi::calls::xrce_agent_process(
        agent, sessions, streams, objects, held, parts, lengths, rebuilt, hours, out, datagram,
        sample, input, time, day, minute, handle,
    )
}

#[unsafe(no_mangle)]
pub extern "C" fn xrce_agent_setup(
    agent: &mut [[u64; 22]],
    sessions: &mut [[u64; 8]],
    streams: &mut [[u16; 35]],
    objects: &mut [Object],
    held: &[u8],
    parts: &[u8],
    lengths: &[u32],
    rebuilt: &[u8],
    hours: &mut [u8],
    windows: &[[u16; 3]],
    max_clients: u64,
    timeout_ms: u64,
) -> u64
    ensures { (result ≡ (set_up_left agent.old (lent sessions.old streams.old objects.old held.now parts.now lengths.now rebuilt.now) hours.old windows.now max_clients timeout_ms).answer)
        × (agent.new ≡ (set_up_left agent.old (lent sessions.old streams.old objects.old held.now parts.now lengths.now rebuilt.now) hours.old windows.now max_clients timeout_ms).records)
        × (sessions.new ≡ (set_up_left agent.old (lent sessions.old streams.old objects.old held.now parts.now lengths.now rebuilt.now) hours.old windows.now max_clients timeout_ms).tables.sessions)
        × (streams.new ≡ (set_up_left agent.old (lent sessions.old streams.old objects.old held.now parts.now lengths.now rebuilt.now) hours.old windows.now max_clients timeout_ms).tables.streams)
        × (objects.new ≡ (set_up_left agent.old (lent sessions.old streams.old objects.old held.now parts.now lengths.now rebuilt.now) hours.old windows.now max_clients timeout_ms).tables.objects)
        × (hours.new ≡ (set_up_left agent.old (lent sessions.old streams.old objects.old held.now parts.now lengths.now rebuilt.now) hours.old windows.now max_clients timeout_ms).hours) }
{
    cabi::calls::xrce_agent_setup(
        agent,
        sessions,
        streams,
        objects,
        held,
        parts,
        lengths,
        rebuilt,
        hours,
        windows,
        max_clients,
        timeout_ms,
    )
}

#[unsafe(no_mangle)]
pub extern "C" fn xrce_agent_remove(agent: &[[u64; 22]], sessions: &mut [[u64; 8]], id: u8) -> u64
    ensures { (result ≡ remove_answer agent.now sessions.old id)
        × (sessions.new ≡ remove_rows agent.now sessions.old id) }
{
    cabi::calls::xrce_agent_remove(agent, sessions, id)
}

#[unsafe(no_mangle)]
pub extern "C" fn xrce_agent_sweep(
    agent: &[[u64; 22]],
    sessions: &mut [[u64; 8]],
    out: &mut [u8],
    time: u64,
) -> u64
    ensures { (result ≡ sweep_answer agent.now sessions.old time out.old)
        × (sessions.new ≡ sweep_rows agent.now sessions.old time out.old)
        × (out.new ≡ sweep_out agent.now sessions.old time out.old) }
{
    cabi::calls::xrce_agent_sweep(agent, sessions, out, time)
}

#[unsafe(no_mangle)]
pub extern "C" fn xrce_agent_list(
    sessions: &[[u64; 8]],
    objects: &[Object],
    out: &mut [u16],
    id: u8,
) -> u64
    ensures { (result ≡ listed_as (list_of sessions.now objects.now id out.old))
        × (out.new ≡ list_out sessions.now objects.now id out.old) }
{
    cabi::calls::xrce_agent_list(sessions, objects, out, id)
}

#[unsafe(no_mangle)]
pub extern "C" fn xrce_agent_first_open(hours: &[u8], day: u8, minute: u16) -> u64
    ensures { result ≡ first_open_as (first_open_of hours.now day minute) }
{
    cabi::calls::xrce_agent_first_open(hours, day, minute)
}
