// The streams of a session: eight records a session, each a row of numbers, those of session s from row 8 * s on.
ghost use Rattle.std.specs.Prelude.{◌≡◌, ◌+◌, ◌≤◌, length};
ghost use Rattle.codec.specs.Bytes.{put_at};
ghost use Rattle.streams.specs.Acknowledged.{sixteen};
ghost use Rattle.sessions.specs.Streams.{number_at, row_from, stream_row, stream_of, stream_at, keep_stream, first_stream};

use crate::need::MOST_STREAMS;
use streams::state::StreamState;

// The row of a stream: its number, the next to send and the expected one, then the numbers and the lengths of what it holds.
pub type StreamRow = [u16; 35];

// No `From` here or back: the stream and the row are both types of others.
#[tactic(auto, unfolding(crate::specs::Streams::stream_of))]
fn stream_of(w: &StreamRow) -> StreamState
    ensures { result ≡ stream_of w.now }
{
    StreamState {
        stream_id: (w[0] % 256) as u8,
        next_send_seq: w[1],
        next_recv_seq: w[2],
        numbers: w[3..19].try_into().unwrap(),
        lengths: w[19..].try_into().unwrap(),
    }
}

// One by one: `copy_from_slice` looks whether the two overlap, and a read and a write then take 20 ns in place of 12.
fn put_words(out: &mut [u16], at: usize, words: &[u16; 16])
    requires { at + 16 ≤ length out.old }
    ensures { out.new ≡ put_at out.old at (sixteen (number_at words.now)) }
{
    for i in 0..16 {
        out[at + i] = words[i];
    }
}

#[tactic(auto, unfolding(crate::specs::Streams::row_from))]
fn put_row(w: &mut StreamRow, s: StreamState)
    ensures { w.new ≡ stream_row s }
{
    w[0] = u16::from(s.stream_id);
    w[1] = s.next_send_seq;
    w[2] = s.next_recv_seq;
    put_words(w, 3, &s.numbers);
    put_words(w, 19, &s.lengths);
}

// Any number may stand in a row; past the store's end all are 0.
pub(crate) fn stream_at(streams: &[StreamRow], at: usize) -> StreamState
    ensures { result ≡ stream_at streams.now at }
{
    match streams.get(at) {
        Some(w) => stream_of(w),
        None => StreamState::new(0),
    }
}

// The number alone, for a search: the rest of the row is not read.
#[tactic(auto, unfolding(crate::specs::Streams::stream_of))]
pub(crate) fn number_at(streams: &[StreamRow], at: usize) -> u8
    ensures { result ≡ (stream_at streams.now at).stream_id }
{
    match streams.get(at) {
        Some(w) => (w[0] % 256) as u8,
        None => 0,
    }
}

// A row is written whole; past the store's end nothing is.
pub(crate) fn keep_stream(streams: &mut [StreamRow], at: usize, s: StreamState)
    ensures { streams.new ≡ keep_stream streams.old at s }
{
    if at < streams.len() {
        put_row(&mut streams[at], s);
    }
}

// The first of a session's eight rows.
pub(crate) fn first_stream(id: u8) -> usize
    ensures { result ≡ first_stream id }
{
    MOST_STREAMS * (id as usize)
}
