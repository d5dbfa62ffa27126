// The bound on what a call can reply, by the headers of its submessages, for 13: where the output is as long, no run of its own finds it out.
ghost use Rattle.std.specs.Prelude.{◌≡◌, ◌+◌, ◌≤◌, length};
ghost use Rattle.codec.specs.Bytes.{word_at};
ghost use Rattle.sessions.specs.Table.{session_at};
ghost use Rattle.agent.specs.Host.{answer_most, first_most, bounded, roomy, ids_at, asks_in, unbound, total_at, least_at, sparse};

use crate::judge::Start;
use codec::submessages::ObjectNumber;
use moves::proxy::{BridgeAnswer, Task};
use sessions::table::SessionRow;

// The ids of the two kinds that are counted.
const ACKNACK: u8 = 0x0E;

const FRAGMENT: u8 = 0x0F;

fn first_most(resumes: Option<(ObjectNumber, Task, BridgeAnswer)>, sample: usize) -> usize
    ensures { result ≡ first_most resumes sample }
{
    resumes.map_or(0, |(_, _, told)| answer_most(told, sample))
}

fn answer_most(told: BridgeAnswer, sample: usize) -> usize
    ensures { result ≡ answer_most told sample }
{
    match told {
        BridgeAnswer::Sample => 10 + sample.min(65533),
        BridgeAnswer::Created(_)
        | BridgeAnswer::Done
        | BridgeAnswer::NoSample
        | BridgeAnswer::Failed => 11,
    }
}

// The two bytes at a place, as a number.
#[tactic(auto, unfolding(codec::specs::Bytes::word_at))]
fn word(d: &[u8], at: usize) -> usize
    requires { at + 2 ≤ length d.now }
    ensures { (result ≡ word_at d.now at) × (result ≤ 65535) }
{
    usize::from(u16::from_le_bytes([d[at], d[at + 1]]))
}

// "Submessage: id, flags (a byte each), length (2), payload": the length of the one at a place.
fn payload_length(d: &[u8], at: usize) -> usize
    requires { at + 4 ≤ length d.now }
    ensures { (result ≡ word_at d.now (at + 2)) × (result ≤ 65535) }
{
    word(d, at + 2)
}

// How many submessages of an id there are from a place of the datagram on, by the headers alone: the datagram was checked
// before.
fn count_ids(d: &[u8], id: u8, from: usize) -> usize
    ensures { result ≡ ids_at id d.now from }
{
    let len = d.len();
    let mut at = from;
    let mut n: usize = 0;
    // A `while`, since each header says where the next stands: an iterator over them would have this body, and laws besides.
    while at < len && 4 <= len - at {
        n += usize::from(d[at] == id);
        at += 4 + payload_length(d, at);
    }
    n
}

// The ACKNACKs, 0x0E, that may be answered by held messages: stream 0 holds none.
fn asks_in(d: &[u8], s: Start) -> usize
    ensures { result ≡ asks_in s d.now }
{
    if s.frame.stream_id == 0 {
        return 0;
    }
    count_ids(d, ACKNACK, s.at)
}

// Whether the output is long enough whatever the submessages say. ACKNACKs are counted only where it isn't for as many as
// there are submessages.
pub(crate) fn is_roomy(room: usize, d: &[u8], s: Start, n: usize, sample: usize) -> bool
    ensures { result ≡ bounded room s n d.now sample }
{
    let first = first_most(s.resumes, sample);
    if room < first {
        return false;
    }
    let left = room - first;
    if left / 12 < n {
        return false;
    }
    let most = (left - 12 * n) / 16384;
    if n <= most {
        return true;
    }
    asks_in(d, s) <= most
}

// Rebuilt submessages have no bound here: those that wait, or what a FRAGMENT, 0x0F, may bring.
pub(crate) fn is_unbound(d: &[u8], s: Start) -> bool
    ensures { result ≡ unbound s d.now }
{
    s.left_at != s.left_end || 0 < count_ids(d, FRAGMENT, s.at)
}

// The total of the FRAGMENT, 0x0F, at a place: number (2), total (2), body. More than any where another submessage stands; 0, as of one
// that may complete, where the datagram ends before it.
fn total_at(d: &[u8], at: usize) -> usize
    requires { at + 4 ≤ length d.now }
    ensures { (result ≡ total_at d.now at) × (result ≤ 65536) }
{
    if d[at] != FRAGMENT {
        return 65536;
    }
    if d.len() - at < 8 {
        return 0;
    }
    word(d, at + 6)
}

// The least total of the FRAGMENTs from a place of the datagram on.
fn least_total(d: &[u8], from: usize) -> usize
    ensures { result ≡ least_at d.now from }
{
    let len = d.len();
    let mut at = from;
    let mut least: usize = 65536;
    // A `while`, as in `count_ids`.
    while at < len && 4 <= len - at {
        least = least.min(total_at(d, at));
        at += 4 + payload_length(d, at);
    }
    least
}

// How many fragments the session of an id has received.
fn received_at(sessions: &[SessionRow], id: u8) -> u64
    ensures { result ≡ (session_at sessions.now id).received }
{
    sessions.get(usize::from(id)).map_or(0, |row| row[7])
}

// No FRAGMENT completes its message: even with all of them the session has received fewer than the least of their totals.
fn is_sparse(sessions: &[SessionRow], d: &[u8], s: Start) -> bool
    ensures { result ≡ sparse s sessions.now d.now }
{
    let n = count_ids(d, FRAGMENT, s.at);
    if n == 0 {
        return true;
    }
    let least = least_total(d, s.at);
    if least <= n {
        return false;
    }
    received_at(sessions, s.frame.session_id) < (least - n) as u64
}

// Whether 13 needs no run of its own: no rebuilt submessage waits or can come, and the output is long enough for all else.
pub(crate) fn is_spared(
    sessions: &[SessionRow],
    room: usize,
    d: &[u8],
    s: Start,
    n: usize,
    sample: usize,
) -> bool
    ensures { result ≡ roomy room s sessions.now n d.now sample }
{
    s.left_at == s.left_end && is_sparse(sessions, d, s) && is_roomy(room, d, s, n, sample)
}
