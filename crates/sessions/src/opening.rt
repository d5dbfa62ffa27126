// Opening a session: which id it gets, and what it starts with.
ghost use Rattle.std.specs.Prelude.{◌≡◌, ◌<◌, ◌≤◌, length};
ghost use Rattle.std.specs.Option.{IfSome, unwrap_or};
ghost use Rattle.sessions.specs.Table.{is_free};
ghost use Rattle.sessions.specs.Opening.{after, live_from, live_of, free_of, counted_of, open_fits, created_of, marked_at, marked_from, unmarked, free_slot, opened_rows, opened_streams};
ghost use Rattle.streams.specs.Places.{first_from};

use crate::need::{SESSIONS, STREAMS};
use crate::stream_rows::{StreamRow, first_stream, keep_stream};
use crate::table::{ClientSession, SessionRow, keep_session, session_at};
use codec::refusals::Refusal;
use streams::state::StreamState;

// After 255 comes 1.
fn after_id(id: u8) -> u8
    ensures { result ≡ after id }
{
    if id == 255 { 1 } else { id + 1 }
}

fn live_count(sessions: &[SessionRow]) -> usize
    requires { 256 ≤ length sessions.now }
    ensures { result ≡ live_of sessions.now }
{
    let mut n = 0;
    // A sum, and no `filter`, whose jumps keep rows from being looked at side by side: opening takes 0.33 µs, and not 0.49.
    for row in &sessions[1..SESSIONS] {
        n += usize::from(row[0] != 0);
    }
    n
}

// The first of the 255 ids that is not live, from `next` on.
fn free_id(sessions: &[SessionRow], next: u8) -> Option<u8>
    requires { 0 < next }
    ensures is { unwrap_or result 0 ≡ free_of sessions.now next }
    ensures above { IfSome result (λ id. 0 < id) }
{
    // The id stands beside the `for`: behind 255 comes 1.
    let mut id = next;
    for _ in 0..u8::MAX {
        if session_at(sessions, id).live == 0 {
            return Some(id);
        }
        id = after_id(id);
    }
    None
}

// The number of live sessions.
#[tactic(auto, unfolding(crate::specs::Opening::counted_of))]
pub fn len(sessions: &[SessionRow]) -> Result<usize, Refusal>
    ensures { result ≡ counted_of sessions.now }
{
    if sessions.len() < SESSIONS {
        return Err(Refusal::OverLimit);
    }
    Ok(live_count(sessions))
}

// 16 where a lent store or a number is past its limit.
#[tactic(auto, unfolding(crate::specs::Opening::open_fits))]
fn fits(sessions: &[SessionRow], streams: &[StreamRow], max_clients: usize, next: u8) -> bool
    ensures { result ≡ open_fits sessions.now streams.now max_clients next }
{
    SESSIONS <= sessions.len() && STREAMS <= streams.len() && max_clients <= 255 && 0 < next
}

// Which id a new session gets, or why it gets none.
#[tactic(auto, unfolding(crate::specs::Opening::created_of, crate::specs::Opening::chosen_of, crate::specs::Opening::open_fits))]
fn admit(
    sessions: &[SessionRow],
    streams: &[StreamRow],
    max_clients: usize,
    next: u8,
) -> Result<(u8, u8), Refusal>
    ensures { result ≡ created_of sessions.now streams.now max_clients next }
{
    if !fits(sessions, streams, max_clients, next) {
        return Err(Refusal::OverLimit);
    }
    if max_clients <= live_count(sessions) {
        return Err(Refusal::SessionFull);
    }
    let id = free_id(sessions, next).ok_or(Refusal::SessionFull)?;
    Ok((id, after_id(id)))
}

// The slot of a live session is taken.
fn mark(sessions: &[SessionRow], taken: &mut [u8], id: u8)
    ensures { taken.new ≡ marked_at sessions.now id taken.old }
{
    let s = session_at(sessions, id);
    let slot = s.slot as usize;
    if s.live != 0 && slot < taken.len() {
        taken[slot] = 1;
    }
}

// The marks of five ids in one number: where it is 0, none of them is live. Five reads, as in a sweep's `count_five`, which has the figures.
pub(crate) fn marks(sessions: &[SessionRow], id: u8) -> u64
    requires { id ≤ 251 }
    ensures { result ≡ 0 → live_from (is_free sessions.now) id 5 ≡ 0 }
{
    let a = session_at(sessions, id).live;
    let b = session_at(sessions, id + 1).live;
    let c = session_at(sessions, id + 2).live;
    let d = session_at(sessions, id + 3).live;
    let e = session_at(sessions, id + 4).live;
    a | b | c | d | e
}

// The slots of five. Most ids are free, so that one test often passes over five.
fn mark_five(sessions: &[SessionRow], taken: &mut [u8], id: u8)
    requires { id ≤ 251 }
    ensures { taken.new ≡ marked_from sessions.now 5 id taken.old }
{
    if marks(sessions, id) == 0 {
        return;
    }
    for i in 0..5 {
        mark(sessions, taken, id + i);
    }
}

// The ids are 1 to 255: 51 times five.
fn mark_slots(sessions: &[SessionRow], taken: &mut [u8])
    ensures { taken.new ≡ marked_from sessions.now 255 1 taken.old }
{
    for k in 0..51 {
        mark_five(sessions, taken, 5 * k + 1);
    }
}

fn first_unmarked(taken: &[u8]) -> usize
    requires { 255 ≤ length taken.now }
    ensures { result ≡ first_from (unmarked taken.now) 255 0 }
{
    taken[..255]
        .iter()
        .position(|mark| *mark == 0)
        .unwrap_or(255)
}

// The lowest slot that no live session has (document 02, W5): with fewer sessions live than `max_clients` it is one of those.
fn free_slot(sessions: &[SessionRow]) -> usize
    ensures { result ≡ free_slot sessions.now }
{
    // Marks are 1 and 0, not bools: `marked_from` of specs/ has them as numbers.
    let mut taken = [0; 256];
    mark_slots(sessions, &mut taken);
    first_unmarked(&taken)
}

// Opens a session under the next free id. The caller keeps `next` for the next one.
pub fn create_session(
    sessions: &mut [SessionRow],
    streams: &mut [StreamRow],
    max_clients: usize,
    next: u8,
    client_key: u32,
    time: u64,
) -> Result<(u8, u8), Refusal>
    ensures { (result ≡ created_of sessions.old streams.old max_clients next)
        × (sessions.new ≡ opened_rows result sessions.old client_key time)
        × (streams.new ≡ opened_streams result streams.old) }
{
    let (id, after) = admit(sessions, streams, max_clients, next)?;
    let s = ClientSession::new(client_key, time, free_slot(sessions));
    keep_session(sessions, id, s);
    keep_stream(streams, first_stream(id), StreamState::new(0));
    Ok((id, after))
}
