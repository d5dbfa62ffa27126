// Held messages over the lent tables (document 02, W5): a DATA reply that takes its stream's next number and is held, and a
// message that is asked for again.
ghost use Rattle.std.specs.Prelude.{◌≡◌, ◌-◌, ◌≤◌, length};
ghost use Rattle.sessions.specs.Streams.{stream_at};
ghost use Rattle.sessions.specs.SessionStreams.{stream_place, read_as};
ghost use Rattle.sessions.specs.Sending.{stretch_of, room_of, buffer_stretch, next_slot, data_slot, kept_sent, sent_rows, sent_bytes, sent_streams, sent_held, message_of};

use crate::need::HELD;
use crate::session_streams::{StreamPlace, find_stream};
use crate::stream_rows::{StreamRow, first_stream, keep_stream, stream_at};
use crate::table::{SessionRow, session_at};
use codec::refusals::Refusal;
use streams::sent::Recorded;
use streams::state::BUFFER_BYTES;

// A part of the store of held messages. That it lies within the store is a clause of those who make one, and no ghost field, which can't name the store. Its length
// is written out: a method would ask of its caller what the subtraction does.
#[derive(Clone, Copy, Debug, PartialEq, Eq)]
pub struct Stretch {
    pub start: usize,
    pub end: usize,
}

// The buffer of the stream at place `k` of its session's streams, by the session's slot; empty where there is none.
fn buffer_place(slot: u64, k: usize, held: usize) -> Stretch
    requires { k ≤ 8 }
    ensures { (result ≡ stretch_of slot k held) × (result.start ≤ result.end) × (result.end ≤ held) × (result.end - result.start ≤ 16384) }
{
    if k == 0 || 255 < slot {
        return Stretch { start: 0, end: 0 };
    }
    let end = HELD * slot as usize + BUFFER_BYTES * k;
    if held < end {
        return Stretch { start: 0, end: 0 };
    }
    Stretch {
        start: end - BUFFER_BYTES,
        end,
    }
}

// Where the buffer of an open stream lies in a store of `held` bytes; empty where it has none.
#[tactic(auto, unfolding(crate::specs::Sending::buffer_stretch))]
pub fn buffer_stretch(
    sessions: &[SessionRow],
    streams: &[StreamRow],
    held: usize,
    id: u8,
    n: u8,
) -> Stretch
    ensures { (result ≡ buffer_stretch sessions.now streams.now held id n) × (result.start ≤ result.end) × (result.end ≤ held) × (result.end - result.start ≤ 16384) }
{
    let Ok(StreamPlace::Have(k)) = find_stream(sessions, streams, id, n) else {
        return Stretch { start: 0, end: 0 };
    };
    buffer_place(session_at(sessions, id).slot, k, held)
}

// The number that the next DATA reply of an open stream takes; 0 where the stream isn't open, as in a new one.
pub fn next_sequence(sessions: &[SessionRow], streams: &[StreamRow], id: u8, n: u8) -> u16
    ensures { result ≡ (read_as (stream_place sessions.now streams.now id n) streams.now id).state.next_send_seq }
{
    let Ok(StreamPlace::Have(k)) = find_stream(sessions, streams, id, n) else {
        return 0;
    };
    stream_at(streams, first_stream(id) + k).next_send_seq
}

// What `send_data` answers for a message of `len` bytes, where the store has `held` bytes.
#[tactic(auto, unfolding(crate::specs::Sending::data_slot))]
pub fn data_slot(
    sessions: &[SessionRow],
    streams: &[StreamRow],
    held: usize,
    id: u8,
    n: u8,
    len: usize,
) -> Result<Option<usize>, Refusal>
    ensures { result ≡ data_slot sessions.now streams.now held id n len }
{
    let StreamPlace::Have(k) = find_stream(sessions, streams, id, n)? else {
        return Ok(None);
    };
    let b = buffer_place(session_at(sessions, id).slot, k, held);
    let s = stream_at(streams, first_stream(id) + k);
    s.slot_for(s.next_send_seq, len, b.end - b.start)
}

// A stream that recorded a message is kept with its next number gone on by one.
fn keep_sent(streams: &mut [StreamRow], at: usize, r: Recorded) -> Result<Option<usize>, Refusal>
    ensures { (result ≡ r.slot) × (streams.new ≡ kept_sent streams.old at r) }
{
    if let Ok(Some(_)) = r.slot {
        keep_stream(streams, at, r.state.alloc_send_seq().state);
    }
    r.slot
}

// The message is recorded in the row `at`, with the buffer of place `k` of that slot.
fn send_at(
    streams: &mut [StreamRow],
    held: &mut [u8],
    at: usize,
    slot: u64,
    k: usize,
    message: &[u8],
) -> Result<Option<usize>, Refusal>
    requires { k ≤ 8 }
    ensures { (result ≡ next_slot (stream_at streams.old at) (length message.now) (room_of (stretch_of slot k (length held.old))))
        × (streams.new ≡ sent_rows streams.old at (length message.now) (room_of (stretch_of slot k (length held.old))))
        × (held.new ≡ sent_bytes held.old (stretch_of slot k (length held.old)) (stream_at streams.old at) message.now) }
{
    let b = buffer_place(slot, k, held.len());
    let s = stream_at(streams, at);
    let r = s.record_sent(s.next_send_seq, message, &mut held[b.start..b.end]);
    keep_sent(streams, at, r)
}

// Holds a DATA reply of an open stream under the stream's next number, which is then gone on by one; on stream 0, and
// where the answer is a refusal, nothing changes.
#[tactic(auto, unfolding(crate::specs::Sending::data_slot, crate::specs::Sending::sent_streams, crate::specs::Sending::sent_held))]
pub fn send_data(
    sessions: &[SessionRow],
    streams: &mut [StreamRow],
    held: &mut [u8],
    id: u8,
    n: u8,
    message: &[u8],
) -> Result<Option<usize>, Refusal>
    ensures { (result ≡ data_slot sessions.now streams.old (length held.old) id n (length message.now))
        × (streams.new ≡ sent_streams sessions.now streams.old held.old id n message.now)
        × (held.new ≡ sent_held sessions.now streams.old held.old id n message.now) }
{
    let StreamPlace::Have(k) = find_stream(sessions, streams, id, n)? else {
        return Ok(None);
    };
    let slot = session_at(sessions, id).slot;
    send_at(streams, held, first_stream(id) + k, slot, k, message)
}

// The message that an open stream holds under `seq`, as that part of the store, or an empty part.
#[tactic(auto, unfolding(crate::specs::Sending::message_of, crate::specs::Sending::buffer_in))]
pub fn message<'a>(
    sessions: &[SessionRow],
    streams: &[StreamRow],
    held: &'a [u8],
    id: u8,
    n: u8,
    seq: u16,
) -> &'a [u8]
    ensures { result.now ≡ message_of sessions.now streams.now held.now id n seq }
{
    let Ok(StreamPlace::Have(k)) = find_stream(sessions, streams, id, n) else {
        return &held[0..0];
    };
    let b = buffer_place(session_at(sessions, id).slot, k, held.len());
    let s = stream_at(streams, first_stream(id) + k);
    s.held_message(seq, &held[b.start..b.end])
}
