// 16 as one check of what a call on a session uses, so that it can be judged right after 15, before anything is touched.
ghost use Rattle.std.specs.Prelude.{◌≡◌};
ghost use Rattle.sessions.specs.Limits.{over_long, counts_kept, slot_kept, lengths_short, lengths_kept, fragments_kept, store_kept, rows_kept, limits_of};

use crate::fragments::{lengths_stretch, parts_stretch};
use crate::need::{MOST_OBJECTS, MOST_STREAMS, stores_fit};
use crate::objects::Object;
use crate::session_streams::{StreamPlace, find_stream};
use crate::stream_rows::{StreamRow, first_stream, stream_at};
use crate::table::{ClientSession, SessionRow, session_at};
use codec::reassembly::ReassemblyBuffer;
use codec::refusals::Refusal;

// The counts are looked at whether or not the session is live: a row that a call left free has none, so that a count past
// its limit there was altered too.
fn counts_kept(s: ClientSession) -> bool
    ensures { result ≡ counts_kept s }
{
    s.objects <= MOST_OBJECTS as u64 && s.streams <= MOST_STREAMS as u64
}

// A live session's slot is one of `max_clients`.
fn slot_kept(s: ClientSession, max_clients: usize) -> bool
    ensures { result ≡ slot_kept s max_clients }
{
    s.live == 0 || s.slot < max_clients as u64
}

// Past 1,025, the length of 1,024 bytes.
#[tactic(auto, unfolding(streams::specs::Places::within))]
fn over_long(length: u16) -> bool
    ensures { result ≡ over_long length }
{
    1025 < length
}

// All sixteen are looked at, with no way out before the last: so they can be looked at side by side.
fn lengths_short(lengths: [u16; 16]) -> bool
    ensures { result ≡ lengths_short lengths }
{
    let mut over = false;
    for length in lengths {
        over |= over_long(length);
    }
    !over
}

// Stream 0 holds nothing, so that its lengths are never used; nor does a stream that isn't open.
#[tactic(auto, using(crate::proofs::limits::Laws::new_in, crate::proofs::limits::Laws::lengths_in))]
fn lengths_kept(sessions: &[SessionRow], streams: &[StreamRow], id: u8, n: u8) -> bool
    ensures { result ≡ lengths_kept sessions.now streams.now id n }
{
    if n == 0 {
        return true;
    }
    let Ok(StreamPlace::Have(k)) = find_stream(sessions, streams, id, n) else {
        return true;
    };
    lengths_short(stream_at(streams, first_stream(id) + k).lengths)
}

// The fragments of a session: as many as 64, and none of their lengths past 512 bytes (document 02, W6).
fn fragments_kept(s: ClientSession, parts: usize, lengths: &[u32]) -> bool
    ensures { result ≡ fragments_kept s parts lengths.now }
{
    if s.total == 0 {
        return s.received == 0;
    }
    if 64 < s.total || s.total < s.received {
        return false;
    }
    let b = ReassemblyBuffer {
        total_fragments: s.total as u16,
        received_count: s.received as u16,
        width: 512,
    };
    !b.is_over(parts, lengths)
}

// The same, by its part of the stores.
#[tactic(auto, unfolding(crate::specs::Sending::buffer_in))]
fn store_kept(sessions: &[SessionRow], parts: usize, lengths: &[u32], id: u8) -> bool
    ensures { result ≡ store_kept sessions.now parts lengths.now id }
{
    let a = parts_stretch(sessions, parts, id);
    let b = lengths_stretch(sessions, lengths.len(), id);
    fragments_kept(
        session_at(sessions, id),
        a.end - a.start,
        &lengths[b.start..b.end],
    )
}

fn rows_kept(
    sessions: &[SessionRow],
    streams: &[StreamRow],
    parts: usize,
    lengths: &[u32],
    max_clients: usize,
    id: u8,
    n: u8,
) -> bool
    ensures { result ≡ rows_kept sessions.now streams.now parts lengths.now max_clients id n }
{
    let s = session_at(sessions, id);
    counts_kept(s)
        && slot_kept(s, max_clients)
        && store_kept(sessions, parts, lengths, id)
        && lengths_kept(sessions, streams, id, n)
}

// Whether the stores are as long as they must be, the counts of that id within 32 objects and 8 streams, its slot within
// `max_clients`, its fragments within 64 of 512 bytes, and the lengths of what its stream of that number holds within 1,024
// bytes.
#[tactic(auto, unfolding(crate::specs::Limits::limits_of))]
pub fn within_limits(
    sessions: &[SessionRow],
    streams: &[StreamRow],
    objects: &[Object],
    held: usize,
    parts: usize,
    lengths: &[u32],
    rebuilt: usize,
    max_clients: usize,
    id: u8,
    n: u8,
) -> Result<(), Refusal>
    ensures { result ≡ limits_of sessions.now streams.now objects.now held parts lengths.now rebuilt max_clients id n }
{
    let fit = stores_fit(
        sessions.len(),
        streams.len(),
        objects.len(),
        held,
        parts,
        lengths.len(),
        rebuilt,
        max_clients,
    );
    if fit && rows_kept(sessions, streams, parts, lengths, max_clients, id, n) {
        Ok(())
    } else {
        Err(Refusal::OverLimit)
    }
}
