// The fragments of a session over the lent stores (document 02, W6), kept by `ReassemblyBuffer`: slots and lengths lie by the
// session's slot, and the bytes that a fragment completes are assembled in a place of their own.
ghost use Rattle.std.specs.Prelude.{◌≡◌, ◌-◌, ◌≤◌, Ok};
ghost use Rattle.sessions.specs.Table.{session_at};
ghost use Rattle.sessions.specs.FragmentStore.{allowed};
ghost use Rattle.sessions.specs.Fragments.{slot_stretch, parts_stretch, lengths_stretch, store_for, lengths_for, gathered_by, rebuilt_by, gathered_in, parts_after, lengths_after, rebuilt_after, gathered_session, takes, gathered, gathered_rows, gathered_parts, gathered_lengths, gathered_rebuilt};

use crate::need::{LENGTHS, PARTS};
use crate::sending::Stretch;
use crate::table::{ClientSession, SessionRow, keep_session, live_at, session_at};
use codec::reassembly::ReassemblyBuffer;
use codec::refusals::Refusal;

// What a fragment comes to: it changes nothing; it is held, in the store as it is then; or it was the last one missing, the
// store is empty again, and so many rebuilt bytes stand at the start of their place.
#[derive(Clone, Copy, Debug, PartialEq, Eq)]
pub enum Gathered {
    Nothing,
    Held(ReassemblyBuffer),
    Whole(usize),
}

// "with total 0, a total over 64, a number not below its total or a longer body it changes nothing but the touch"
fn is_allowed(nr: u16, total: u16, len: usize) -> bool
    ensures { result ≡ allowed nr total len }
{
    total != 0 && total <= 64 && nr < total && len <= 512
}

// The part of a slot in a store of `store` entries, `width` for each slot; empty where there is none.
fn slot_stretch(width: usize, slot: u64, store: usize) -> Stretch
    requires { width ≤ 32768 }
    ensures { (result ≡ slot_stretch width slot store) × (result.start ≤ result.end) × (result.end ≤ store) × (result.end - result.start ≤ width) }
{
    if 255 < slot || store < width * (slot as usize + 1) {
        return Stretch { start: 0, end: 0 };
    }
    let start = width * slot as usize;
    Stretch {
        start,
        end: start + width,
    }
}

// Where the bodies of a session's fragments lie in a store of `parts` bytes.
pub fn parts_stretch(sessions: &[SessionRow], parts: usize, id: u8) -> Stretch
    ensures { (result ≡ parts_stretch (session_at sessions.now id) parts) × (result.start ≤ result.end) × (result.end ≤ parts) × (result.end - result.start ≤ 32768) }
{
    slot_stretch(PARTS, session_at(sessions, id).slot, parts)
}

// And their lengths, in a store of so many.
pub fn lengths_stretch(sessions: &[SessionRow], lengths: usize, id: u8) -> Stretch
    ensures { (result ≡ lengths_stretch (session_at sessions.now id) lengths) × (result.start ≤ result.end) × (result.end ≤ lengths) × (result.end - result.start ≤ 64) }
{
    slot_stretch(LENGTHS, session_at(sessions, id).slot, lengths)
}

// The store that a fragment of that total goes into.
#[tactic(auto, unfolding(crate::specs::Fragments::store_for, crate::specs::Fragments::lengths_for))]
fn store_for(
    s: ClientSession,
    total: u16,
    parts: &[u8],
    lengths: &mut [u32],
) -> Result<ReassemblyBuffer, Refusal>
    ensures { (result ≡ store_for s total parts.now lengths.old)
        × (lengths.new ≡ lengths_for s total parts.now lengths.old) }
{
    if s.total == total as u64 {
        if 64 < s.received {
            return Err(Refusal::OverLimit);
        }
        return Ok(ReassemblyBuffer {
            total_fragments: total,
            received_count: s.received as u16,
            width: 512,
        });
    }
    ReassemblyBuffer::new(total, 512, parts, lengths)
}

// Where the last missing number came, the bytes in their place.
fn assemble_if(
    all: bool,
    b: ReassemblyBuffer,
    parts: &[u8],
    lengths: &[u32],
    rebuilt: &mut [u8],
) -> Gathered
    ensures { (result ≡ gathered_by (Ok (b, all)) parts.now lengths.now rebuilt.old)
        × (rebuilt.new ≡ rebuilt_by (Ok (b, all)) parts.now lengths.now rebuilt.old) }
{
    if !all {
        return Gathered::Held(b);
    }
    match b.assemble(parts, lengths, rebuilt) {
        Ok(n) => Gathered::Whole(n),
        Err(_) => Gathered::Held(b),
    }
}

// A fragment that is allowed, over the session's own part of the stores.
#[tactic(auto, unfolding(crate::specs::Fragments::gathered_in, crate::specs::Fragments::parts_after, crate::specs::Fragments::lengths_after, crate::specs::Fragments::rebuilt_after))]
fn gather_in(
    s: ClientSession,
    parts: &mut [u8],
    lengths: &mut [u32],
    rebuilt: &mut [u8],
    nr: u16,
    total: u16,
    body: &[u8],
) -> Gathered
    ensures { (result ≡ gathered_in s parts.old lengths.old rebuilt.old nr total body.now)
        × (parts.new ≡ parts_after s parts.old lengths.old nr total body.now)
        × (lengths.new ≡ lengths_after s parts.old lengths.old nr total body.now)
        × (rebuilt.new ≡ rebuilt_after s parts.old lengths.old rebuilt.old nr total body.now) }
{
    let Ok(b) = store_for(s, total, parts, lengths) else {
        return Gathered::Nothing;
    };
    let Ok((after, all)) = b.insert(parts, lengths, nr, body) else {
        return Gathered::Nothing;
    };
    assemble_if(all, after, parts, lengths, rebuilt)
}

// The session with its store: emptied where its last missing fragment came.
fn session_with(s: ClientSession, g: Gathered) -> ClientSession
    ensures { result ≡ gathered_session s g }
{
    match g {
        Gathered::Nothing => s,
        Gathered::Held(b) => ClientSession {
            total: b.total_fragments as u64,
            received: b.received_count as u64,
            ..s
        },
        Gathered::Whole(_) => ClientSession {
            total: 0,
            received: 0,
            ..s
        },
    }
}

// Whether a fragment is taken: it is allowed, and its session is live.
fn is_taken(sessions: &[SessionRow], id: u8, nr: u16, total: u16, len: usize) -> bool
    ensures { result ≡ takes sessions.now id nr total len }
{
    matches!(live_at(sessions, id), Ok(true)) && is_allowed(nr, total, len)
}

// A fragment of a live session: kept in its store, in place of one of its number, and the whole assembled where it is the
// last one missing.
#[tactic(auto, unfolding(crate::specs::Fragments::gathered, crate::specs::Fragments::gathered_rows, crate::specs::Fragments::gathered_parts, crate::specs::Fragments::gathered_lengths, crate::specs::Fragments::gathered_rebuilt, crate::specs::Sending::buffer_in, crate::specs::Sending::with_buffer))]
pub fn keep_fragment(
    sessions: &mut [SessionRow],
    parts: &mut [u8],
    lengths: &mut [u32],
    rebuilt: &mut [u8],
    id: u8,
    nr: u16,
    total: u16,
    body: &[u8],
) -> Gathered
    ensures { (result ≡ gathered sessions.old parts.old lengths.old rebuilt.old id nr total body.now)
        × (sessions.new ≡ gathered_rows sessions.old parts.old lengths.old rebuilt.old id nr total body.now)
        × (parts.new ≡ gathered_parts sessions.old parts.old lengths.old id nr total body.now)
        × (lengths.new ≡ gathered_lengths sessions.old parts.old lengths.old id nr total body.now)
        × (rebuilt.new ≡ gathered_rebuilt sessions.old parts.old lengths.old rebuilt.old id nr total body.now) }
{
    if !is_taken(sessions, id, nr, total, body.len()) {
        return Gathered::Nothing;
    }
    let s = session_at(sessions, id);
    let a = parts_stretch(sessions, parts.len(), id);
    let b = lengths_stretch(sessions, lengths.len(), id);
    let g = gather_in(
        s,
        &mut parts[a.start..a.end],
        &mut lengths[b.start..b.end],
        rebuilt,
        nr,
        total,
        body,
    );
    keep_session(sessions, id, session_with(s, g));
    g
}
