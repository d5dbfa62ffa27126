// What an ACKNACK asks for again (document 02, W5): the held messages, byte for byte, in the order of their bits.
ghost use Rattle.std.specs.Prelude.{◌≡◌, map, ◌≤◌, length};
ghost use Rattle.codec.specs.Bytes.{put_bytes};
ghost use Rattle.sessions.specs.Sending.{message_of};
ghost use Rattle.agent.specs.Step.{replied};
ghost use Rattle.agent.specs.Run.{counted, count_replies, put_replies, repeats_in, replies_by};

use crate::replies::{count, put_acknack, put_status};
use crate::turn::Frame;
use codec::bytes::put_bytes;
use codec::submessages::AcknackPayload;
use moves::moves::Move;
use sessions::sending::message;
use sessions::session_streams::read_stream;
use sessions::stream_rows::StreamRow;
use sessions::table::SessionRow;

// One of them, from `at` on; the place behind it. On slices, as its callers are: the stores are lent to them one by one.
fn repeat_one(
    sessions: &[SessionRow],
    streams: &[StreamRow],
    held: &[u8],
    out: &mut [u8],
    f: Frame,
    at: usize,
    seq: u16,
) -> usize
    requires { f.room ≤ 9223372036854775807 }
    ensures { (result ≡ counted f.room at (length (message_of sessions.now streams.now held.now f.session_id f.stream_id seq)))
        × (out.new ≡ put_bytes out.old at (message_of sessions.now streams.now held.now f.session_id f.stream_id seq)) }
{
    let m = message(sessions, streams, held, f.session_id, f.stream_id, seq);
    let _ = put_bytes(out, at, m);
    let n = m.len();
    count(f.room, at, n)
}

fn repeat_all(
    sessions: &[SessionRow],
    streams: &[StreamRow],
    held: &[u8],
    out: &mut [u8],
    f: Frame,
    at: usize,
    numbers: &[u16],
) -> usize
    requires { f.room ≤ 9223372036854775807 }
    ensures { (result ≡ count_replies f.room at (map (replied f.session_id) (map (message_of sessions.now streams.now held.now f.session_id f.stream_id) numbers.now)))
        × (out.new ≡ put_replies f.room out.old at (map (replied f.session_id) (map (message_of sessions.now streams.now held.now f.session_id f.stream_id) numbers.now))) }
{
    let mut w = at;
    for number in numbers {
        w = repeat_one(sessions, streams, held, out, f, w, *number);
    }
    w
}

fn repeat(
    sessions: &[SessionRow],
    streams: &[StreamRow],
    held: &[u8],
    out: &mut [u8],
    f: Frame,
    at: usize,
    p: AcknackPayload,
) -> usize
    requires { f.room ≤ 9223372036854775807 }
    ensures { (result ≡ count_replies f.room at (map (replied f.session_id) (repeats_in sessions.now streams.now held.now f.session_id f.stream_id p)))
        × (out.new ≡ put_replies f.room out.old at (map (replied f.session_id) (repeats_in sessions.now streams.now held.now f.session_id f.stream_id p))) }
{
    let r = read_stream(sessions, streams, f.session_id, f.stream_id);
    let s = r.state;
    let a = s.list_repeats(p.first_unacked_seq, p.nack_bitmap);
    repeat_all(sessions, streams, held, out, f, at, &a.repeats[..a.count])
}

// The replies to a submessage, from `at` on; the place behind them. "Replies carry .., CREATE_CLIENT's apart, the header's
// session and stream."
pub(crate) fn answer(
    sessions: &[SessionRow],
    streams: &[StreamRow],
    held: &[u8],
    out: &mut [u8],
    f: Frame,
    at: usize,
    m: Move,
) -> usize
    requires { f.room ≤ 9223372036854775807 }
    ensures { (result ≡ count_replies f.room at (replies_by f sessions.now streams.now held.now m))
        × (out.new ≡ put_replies f.room out.old at (replies_by f sessions.now streams.now held.now m)) }
{
    match m {
        Move::Greets(_, _) => at,
        Move::Status(number, code) => {
            put_status(out, at, f.session_id, f.stream_id, number, code);
            count(f.room, at, 11)
        }
        Move::Acknack(p) => {
            put_acknack(out, at, f.session_id, f.stream_id, p);
            count(f.room, at, 12)
        }
        Move::Repeats(p) => repeat(sessions, streams, held, out, f, at, p),
        Move::Calls(_, _, _) => at,
        Move::Silent => at,
    }
}
