// The streams of a session, by its id and their own numbers: opened, read and written back.
ghost use Rattle.std.specs.Prelude.{Ok, ◌≡◌, ◌+◌, ◌<◌, ◌≤◌, IfSome};
ghost use Rattle.std.specs.Option.{unwrap_or};
ghost use Rattle.streams.specs.Places.{first_from};
ghost use Rattle.streams.specs.State.{new_stream};
ghost use Rattle.sessions.specs.SessionStreams.{streams_named, is_stream, stream_place, one_of_eight, opened_as, opened_in, opened_count, read_as, named_as, written_in};

use crate::need::{MOST_STREAMS, STREAMS};
use crate::stream_rows::{StreamRow, first_stream, keep_stream, number_at, stream_at};
use crate::table::{ClientSession, SessionRow, keep_session, reached, session_at};
use codec::refusals::Refusal;
use streams::state::StreamState;

// The place that a stream has among its session's eight, or the place that it would get: there is none for a ninth.
#[derive(Clone, Copy, Debug, PartialEq, Eq)]
pub(crate) enum StreamPlace {
    Have(usize),
    Add(usize),
    Full,
    NotLive,
}

// What opening a stream comes to. It is open whether it was before or not; a ninth is not opened.
#[derive(Clone, Copy, Debug, PartialEq, Eq)]
pub enum StreamOpened {
    Open,
    Full,
    NotLive,
}

// What a stream's number names.
#[derive(Clone, Copy, Debug, PartialEq, Eq)]
pub enum StreamNamed {
    Open,
    NotOpen,
    NotLive,
}

// A stream that was read: where it is not open, a new stream 0 stands in its place, which callers take as it is, so that the
// answer stands beside it and is no Result around it (`read_as` of specs/).
#[derive(Clone, Copy, Debug, PartialEq, Eq)]
pub struct StreamRead {
    pub answer: Result<StreamNamed, Refusal>,
    pub state: StreamState,
}

#[tactic(auto, unfolding(crate::specs::SessionStreams::streams_named))]
fn reach(sessions: &[SessionRow], streams: usize, id: u8) -> Result<bool, Refusal>
    ensures { result ≡ streams_named sessions.now streams id }
{
    let used = session_at(sessions, id).streams;
    reached(sessions, id, used, MOST_STREAMS as u64, streams, STREAMS)
}

fn is_stream(streams: &[StreamRow], first: usize, n: u8, k: usize) -> bool
    requires { first + k ≤ 65536 }
    ensures { result ≡ is_stream streams.now first n k }
{
    number_at(streams, first + k) == n
}

// The place of the stream of that number, of those in use.
fn search(streams: &[StreamRow], first: usize, n: u8, used: usize) -> Option<usize>
    requires { first + used ≤ 65536 }
    ensures is { unwrap_or result used ≡ first_from (is_stream streams.now first n) used 0 }
    ensures under { IfSome result (λ k. k < used) }
{
    (0..used).find(|k| is_stream(streams, first, n, *k))
}

// Where the stream of that number is, or would be.
#[tactic(auto, using(crate::proofs::session_streams::Laws::streams_few, crate::proofs::session_streams::Laws::place_small), unfolding(crate::specs::SessionStreams::stream_place))]
pub(crate) fn find_stream(
    sessions: &[SessionRow],
    streams: &[StreamRow],
    id: u8,
    n: u8,
) -> Result<StreamPlace, Refusal>
    ensures place { result ≡ stream_place sessions.now streams.now id n }
    ensures few { one_of_eight result }
{
    if !reach(sessions, streams.len(), id)? {
        return Ok(StreamPlace::NotLive);
    }
    let used = session_at(sessions, id).streams as usize;
    match search(streams, first_stream(id), n, used) {
        Some(k) => Ok(StreamPlace::Have(k)),
        None if MOST_STREAMS <= used => Ok(StreamPlace::Full),
        None => Ok(StreamPlace::Add(used)),
    }
}

// A stream that was just opened joins its session's at place k.
fn add_stream(sessions: &mut [SessionRow], streams: &mut [StreamRow], id: u8, k: usize, n: u8)
    requires { k ≤ 8 }
    ensures { (sessions.new ≡ opened_count (Ok (StreamPlace.Add k)) sessions.old id)
        × (streams.new ≡ opened_in (Ok (StreamPlace.Add k)) streams.old id n) }
{
    let more = ClientSession {
        streams: (k + 1) as u64,
        ..session_at(sessions, id)
    };
    keep_session(sessions, id, more);
    keep_stream(streams, first_stream(id) + k, StreamState::new(n));
}

// The stream of that number, opened if it was not.
pub fn open_stream(
    sessions: &mut [SessionRow],
    streams: &mut [StreamRow],
    id: u8,
    n: u8,
) -> Result<StreamOpened, Refusal>
    ensures { (result ≡ opened_as (stream_place sessions.old streams.old id n))
        × (sessions.new ≡ opened_count (stream_place sessions.old streams.old id n) sessions.old id)
        × (streams.new ≡ opened_in (stream_place sessions.old streams.old id n) streams.old id n) }
{
    let p = find_stream(sessions, streams, id, n)?;
    match p {
        StreamPlace::Have(_) => Ok(StreamOpened::Open),
        StreamPlace::Add(k) => {
            add_stream(sessions, streams, id, k, n);
            Ok(StreamOpened::Open)
        }
        StreamPlace::Full => Ok(StreamOpened::Full),
        StreamPlace::NotLive => Ok(StreamOpened::NotLive),
    }
}

fn unread(answer: Result<StreamNamed, Refusal>) -> StreamRead
    ensures { result ≡ record { answer = answer; state = new_stream 0 } }
{
    StreamRead {
        answer,
        state: StreamState::new(0),
    }
}

// The open stream of that number.
pub fn read_stream(sessions: &[SessionRow], streams: &[StreamRow], id: u8, n: u8) -> StreamRead
    ensures { result ≡ read_as (stream_place sessions.now streams.now id n) streams.now id }
{
    match find_stream(sessions, streams, id, n) {
        Ok(StreamPlace::Have(k)) => StreamRead {
            answer: Ok(StreamNamed::Open),
            state: stream_at(streams, first_stream(id) + k),
        },
        Ok(StreamPlace::Add(_) | StreamPlace::Full) => unread(Ok(StreamNamed::NotOpen)),
        Ok(StreamPlace::NotLive) => unread(Ok(StreamNamed::NotLive)),
        Err(x) => unread(Err(x)),
    }
}

// Writes an open stream back, in the place of its own number: whatever a caller writes, the numbers stay what they are.
pub fn write_stream(
    sessions: &[SessionRow],
    streams: &mut [StreamRow],
    id: u8,
    s: StreamState,
) -> Result<StreamNamed, Refusal>
    ensures { (result ≡ named_as (stream_place sessions.now streams.old id s.stream_id))
        × (streams.new ≡ written_in (stream_place sessions.now streams.old id s.stream_id) streams.old id s) }
{
    let p = find_stream(sessions, streams, id, s.stream_id)?;
    match p {
        StreamPlace::Have(k) => {
            keep_stream(streams, first_stream(id) + k, s);
            Ok(StreamNamed::Open)
        }
        StreamPlace::Add(_) | StreamPlace::Full => Ok(StreamNamed::NotOpen),
        StreamPlace::NotLive => Ok(StreamNamed::NotLive),
    }
}
