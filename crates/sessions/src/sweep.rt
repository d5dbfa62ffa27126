// A sweep: every expired session ends, and their ids are listed.
ghost use Rattle.std.specs.Prelude.{◌≡◌, cond, ◌+◌, ◌-◌, ◌≤◌, length, set};
ghost use Rattle.codec.specs.Bytes.{put_at};
ghost use Rattle.sessions.specs.Sweep.{goes, expired_from, expired_ids, swept_at, swept_rows, evicted_of, evicted_out, evicted_rows};

use crate::need::SESSIONS;
use crate::opening::marks;
use crate::table::{ClientSession, SessionRow, keep_session, session_at};
use codec::refusals::Refusal;

// Whether a live session has expired. Time and timeout go as two numbers through the sweep, as the public function takes them: only this test reads them.
#[tactic(auto, unfolding(crate::specs::Sweep::goes))]
fn goes(sessions: &[SessionRow], id: u8, time: u64, timeout_ms: u64) -> bool
    ensures { result ≡ goes sessions.now time timeout_ms id }
{
    let s = session_at(sessions, id);
    s.live != 0 && s.is_expired(time, timeout_ms)
}

// The same as a number, to be summed.
fn one(sessions: &[SessionRow], id: u8, time: u64, timeout_ms: u64) -> usize
    ensures { (result ≡ cond (goes sessions.now time timeout_ms id) 1 0) × (result ≤ 1) }
{
    goes(sessions, id, time, timeout_ms) as usize
}

// How many of five go. Most ids are free, so that one test often passes over five.
// A chain over the five takes a third more instructions in a full table: 4,800 a sweep beside 3,500.
#[tactic(auto, unfolding(crate::specs::Sweep::expired_from))]
fn count_five(sessions: &[SessionRow], id: u8, time: u64, timeout_ms: u64) -> usize
    requires { id ≤ 251 }
    ensures { (result ≡ length (expired_from (goes sessions.now time timeout_ms) id 5)) × (result ≤ 5) }
{
    if marks(sessions, id) == 0 {
        return 0;
    }
    let a = one(sessions, id, time, timeout_ms);
    let b = one(sessions, id + 1, time, timeout_ms);
    let c = one(sessions, id + 2, time, timeout_ms);
    let d = one(sessions, id + 3, time, timeout_ms);
    let e = one(sessions, id + 4, time, timeout_ms);
    a + b + c + d + e
}

// How many sessions go; none of them has an id below `first`.
#[derive(Clone, Copy, Debug, PartialEq, Eq)]
struct Gone {
    n: usize,
    first: usize,
}

// The ids are 1 to 255: 51 times five, the last ones first.
fn count_expired(sessions: &[SessionRow], time: u64, timeout_ms: u64) -> Gone
    ensures { (result.n ≡ length (expired_ids sessions.now time timeout_ms))
        × (1 ≤ result.first) × (result.first ≤ 256) × (length (expired_from (goes sessions.now time timeout_ms) 1 (result.first - 1)) ≡ 0) }
{
    let mut n = 0;
    let mut first = SESSIONS;
    for k in (0..51u8).rev() {
        let id = 5 * k + 1;
        let c = count_five(sessions, id, time, timeout_ms);
        n += c;
        if c != 0 {
            first = id as usize;
        }
    }
    Gone { n, first }
}

// An id joins the list; past the output's end nothing is written.
fn list_id(out: &mut [u8], at: usize, id: u8)
    ensures { out.new ≡ set out.old at id }
{
    if at < out.len() {
        out[at] = id;
    }
}

// One id: if its session goes, it is listed and ended.
#[tactic(auto, unfolding(crate::specs::Sweep::swept_at))]
fn sweep_one(
    sessions: &mut [SessionRow],
    out: &mut [u8],
    id: u8,
    at: usize,
    time: u64,
    timeout_ms: u64,
) -> usize
    requires { at ≤ 255 }
    ensures { (result ≡ cond (goes sessions.old time timeout_ms id) (at + 1) at)
        × (sessions.new ≡ swept_at sessions.old time timeout_ms id)
        × (out.new ≡ cond (goes sessions.old time timeout_ms id) (set out.old at id) out.old) }
{
    if goes(sessions, id, time, timeout_ms) {
        keep_session(sessions, id, ClientSession::ended());
        list_id(out, at, id);
        at + 1
    } else {
        at
    }
}

// Once the last of those that go has ended, no further id is looked at.
fn sweep(sessions: &mut [SessionRow], out: &mut [u8], time: u64, timeout_ms: u64, gone: Gone)
    requires { (gone.n ≡ length (expired_ids sessions.old time timeout_ms)) × (gone.n ≤ length out.old)
        × (1 ≤ gone.first) × (gone.first ≤ 256) × (length (expired_from (goes sessions.old time timeout_ms) 1 (gone.first - 1)) ≡ 0) }
    ensures { (sessions.new ≡ swept_rows sessions.old time timeout_ms)
        × (out.new ≡ put_at out.old 0 (expired_ids sessions.old time timeout_ms)) }
{
    let mut at = 0;
    for i in gone.first..SESSIONS {
        if at == gone.n {
            break;
        }
        at = sweep_one(sessions, out, i as u8, at, time, timeout_ms);
    }
}

// Ends every expired session and lists their ids, ascending, a byte each.
#[tactic(auto, unfolding(crate::specs::Sweep::evicted_of, crate::specs::Sweep::evicted_out, crate::specs::Sweep::evicted_rows, codec::specs::Bytes::put_of, codec::specs::Bytes::put_bytes))]
pub fn evict_expired(
    sessions: &mut [SessionRow],
    time: u64,
    timeout_ms: u64,
    out: &mut [u8],
) -> Result<usize, Refusal>
    ensures { (result ≡ evicted_of sessions.old time timeout_ms out.old)
        × (sessions.new ≡ evicted_rows sessions.old time timeout_ms out.old)
        × (out.new ≡ evicted_out sessions.old time timeout_ms out.old) }
{
    if sessions.len() < SESSIONS {
        return Err(Refusal::OverLimit);
    }
    let gone = count_expired(sessions, time, timeout_ms);
    if out.len() < gone.n {
        return Err(Refusal::OutputTooShort);
    }
    sweep(sessions, out, time, timeout_ms, gone);
    Ok(gone.n)
}
