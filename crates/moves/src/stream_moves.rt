// HEARTBEAT, ACKNACK and READ_DATA over the session's streams: each opens its stream, then goes by it as it is read.
ghost use Rattle.std.specs.Prelude.{◌≡◌};
ghost use Rattle.moves.specs.Moves.{heartbeat_move, acknack_on};
ghost use Rattle.moves.specs.RowsStreams.{acknowledged_rows, opened_sessions, opened_rows, read_of, read_move, read_sessions, read_rows};

use crate::moves::{Move, acknack_move, heartbeat_move, read_call, read_on};
use codec::submessages::{AcknackPayload, HeartbeatPayload, ObjectNumber, StatusCode};
use sessions::objects::Handle;
use sessions::session_streams::{StreamNamed, StreamRead, open_stream, read_stream, write_stream};
use sessions::stream_rows::StreamRow;
use sessions::table::SessionRow;

// What an ACKNACK leaves of its stream is written back, if it is open. It goes by the first number alone: the bitmap asks
// for repeats, and leaves the stream as it is.
#[tactic(auto, unfolding(streams::specs::Acknowledged::acknowledge, streams::specs::Acknowledged::repeats_of))]
fn acknowledge(
    sessions: &[SessionRow],
    streams: &mut [StreamRow],
    id: u8,
    stream: StreamRead,
    p: AcknackPayload,
)
    ensures { streams.new ≡ acknowledged_rows sessions.now streams.old id stream.answer stream.state p }
{
    if let Ok(StreamNamed::Open) = stream.answer {
        let s = stream.state.drop_before(p.first_unacked_seq);
        // It was read as open, so it has its place.
        let _ = write_stream(sessions, streams, id, s);
    }
}

// A stream, opened if it may be, and as it is read then, which says whether it is open: a ninth one is not.
fn opened(sessions: &mut [SessionRow], streams: &mut [StreamRow], id: u8, n: u8) -> StreamRead
    ensures { (result ≡ read_of (opened_sessions sessions.old streams.old id n) (opened_rows sessions.old streams.old id n) id n)
        × (sessions.new ≡ opened_sessions sessions.old streams.old id n)
        × (streams.new ≡ opened_rows sessions.old streams.old id n) }
{
    let _ = open_stream(sessions, streams, id, n);
    read_stream(sessions, streams, id, n)
}

// A ninth stream is not opened, and then neither read nor written.
pub(crate) fn heartbeat(
    sessions: &mut [SessionRow],
    streams: &mut [StreamRow],
    id: u8,
    n: u8,
    p: HeartbeatPayload,
) -> Move
    ensures { (result ≡ heartbeat_move (read_of (opened_sessions sessions.old streams.old id n) (opened_rows sessions.old streams.old id n) id n) p)
        × (sessions.new ≡ opened_sessions sessions.old streams.old id n)
        × (streams.new ≡ opened_rows sessions.old streams.old id n) }
{
    heartbeat_move(opened(sessions, streams, id, n), p)
}

pub(crate) fn acknack(
    sessions: &mut [SessionRow],
    streams: &mut [StreamRow],
    id: u8,
    n: u8,
    p: AcknackPayload,
) -> Move
    ensures { (result ≡ acknack_on (read_of (opened_sessions sessions.old streams.old id n) (opened_rows sessions.old streams.old id n) id n).answer
        (read_of (opened_sessions sessions.old streams.old id n) (opened_rows sessions.old streams.old id n) id n).state p)
        × (sessions.new ≡ opened_sessions sessions.old streams.old id n)
        × (streams.new ≡ acknowledged_rows (opened_sessions sessions.old streams.old id n) (opened_rows sessions.old streams.old id n) id
        (read_of (opened_sessions sessions.old streams.old id n) (opened_rows sessions.old streams.old id n) id n).answer
        (read_of (opened_sessions sessions.old streams.old id n) (opened_rows sessions.old streams.old id n) id n).state p) }
{
    let stream = opened(sessions, streams, id, n);
    acknowledge(sessions, streams, id, stream, p);
    acknack_move(stream, p)
}

// READ_DATA: an unknown reader opens no stream; of a known one, stream 0 is open and holds nothing, and any other is opened
// first (document 02, W5).
pub(crate) fn read_by(
    sessions: &mut [SessionRow],
    streams: &mut [StreamRow],
    id: u8,
    n: u8,
    number: ObjectNumber,
    reader: Option<Handle>,
) -> Move
    ensures { (result ≡ read_move number reader sessions.old streams.old id n)
        × (sessions.new ≡ read_sessions reader sessions.old streams.old id n)
        × (streams.new ≡ read_rows reader sessions.old streams.old id n) }
{
    match reader {
        Some(h) if n == 0 => read_call(number, h),
        Some(h) => read_on(opened(sessions, streams, id, n), number, h),
        None => Move::Status(number, StatusCode::ErrUnknownRef),
    }
}
