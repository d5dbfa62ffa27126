// The answer's part of a call: its reply is written, and held where it is DATA on a stream other than 0, and what it lists is
// stored, where its session is live.
ghost use Rattle.std.specs.Prelude.{◌≡◌, true, ◌≤◌, length};
ghost use Rattle.codec.specs.Bytes.{put_bytes};
ghost use Rattle.moves.specs.Replies.{data_bytes};
ghost use Rattle.moves.specs.declared.answers.Says.TheVariants.{Data};
ghost use Rattle.sessions.specs.Sending.{sent_streams, sent_held};
ghost use Rattle.agent.specs.Step.{joined_replies};
ghost use Rattle.agent.specs.Run.{put_replies};
ghost use Rattle.agent.specs.Answered.{says_fits, sequence_of, says_bytes, says_streams, says_held};
ghost use Rattle.agent.specs.Host.{answers_now, told_by, begun_by, begun, Prepared};
ghost use Rattle.agent.specs.Stores.{stores_of, SamePlaces};

use crate::judge::Start;
use crate::replies::{put_status, reply_data};
use crate::stores::Stores;
use crate::turn::Frame;
use codec::bytes::put_bytes;
use codec::refusals::Refusal;
use codec::submessages::{ObjectNumber, StatusCode};
use moves::answers::{Says, keep, what_keeps, what_says};
use moves::proxy::{BridgeAnswer, Task};
use sessions::objects::Object;
use sessions::sending::{next_sequence, send_data};
use sessions::stream_rows::StreamRow;
use sessions::table::{ClientSession, SessionRow, get};

// The number that a DATA reply takes: "the next send sequence" (document 02, W5), 0 on stream 0.
fn sequence(sessions: &[SessionRow], streams: &[StreamRow], f: Frame) -> u16
    ensures { result ≡ sequence_of sessions.now streams.now f }
{
    if f.stream_id == 0 {
        return 0;
    }
    next_sequence(sessions, streams, f.session_id, f.stream_id)
}

// A sample as DATA that is held: it is composed once, since the store keeps it whatever the output's room.
fn send(
    sessions: &[SessionRow],
    streams: &mut [StreamRow],
    held: &mut [u8],
    out: &mut [u8],
    sample: &[u8],
    f: Frame,
    sequence_nr: u16,
    number: ObjectNumber,
) -> usize
    requires { length sample.now ≤ 1014 }
    ensures { (result ≡ length (data_bytes f.session_id f.stream_id sequence_nr number.0 sample.now))
        × (streams.new ≡ sent_streams sessions.now streams.old held.old f.session_id f.stream_id (data_bytes f.session_id f.stream_id sequence_nr number.0 sample.now))
        × (held.new ≡ sent_held sessions.now streams.old held.old f.session_id f.stream_id (data_bytes f.session_id f.stream_id sequence_nr number.0 sample.now))
        × (out.new ≡ put_bytes out.old 0 (data_bytes f.session_id f.stream_id sequence_nr number.0 sample.now)) }
{
    let mut line = [0u8; 1024];
    let n = reply_data(
        &mut line,
        sample,
        f.session_id,
        f.stream_id,
        sequence_nr,
        number,
    );
    let message = &line[..n];
    let _ = put_bytes(out, 0, message);
    let _ = send_data(sessions, streams, held, f.session_id, f.stream_id, message);
    n
}

// A sample as DATA: "On streams other than 0 each DATA reply .. is held" (document 02, W5).
fn say_data(
    sessions: &[SessionRow],
    streams: &mut [StreamRow],
    held: &mut [u8],
    out: &mut [u8],
    sample: &[u8],
    f: Frame,
    number: ObjectNumber,
) -> usize
    requires { says_fits Data f.stream_id (length sample.now) ≡ true }
    ensures { (result ≡ length (says_bytes Data f (sequence_of sessions.now streams.old f) number sample.now))
        × (streams.new ≡ says_streams Data f sessions.now streams.old held.old (says_bytes Data f (sequence_of sessions.now streams.old f) number sample.now))
        × (held.new ≡ says_held Data f sessions.now streams.old held.old (says_bytes Data f (sequence_of sessions.now streams.old f) number sample.now))
        × (out.new ≡ put_bytes out.old 0 (says_bytes Data f (sequence_of sessions.now streams.old f) number sample.now)) }
{
    let seq = sequence(sessions, streams, f);
    if f.stream_id == 0 {
        return reply_data(out, sample, f.session_id, f.stream_id, seq, number);
    }
    send(sessions, streams, held, out, sample, f, seq, number)
}

// The reply to an answer, at the start of the output.
fn say(
    sessions: &[SessionRow],
    streams: &mut [StreamRow],
    held: &mut [u8],
    out: &mut [u8],
    sample: &[u8],
    f: Frame,
    number: ObjectNumber,
    s: Says,
) -> usize
    requires { says_fits s f.stream_id (length sample.now) ≡ true }
    ensures { (result ≡ length (says_bytes s f (sequence_of sessions.now streams.old f) number sample.now))
        × (streams.new ≡ says_streams s f sessions.now streams.old held.old (says_bytes s f (sequence_of sessions.now streams.old f) number sample.now))
        × (held.new ≡ says_held s f sessions.now streams.old held.old (says_bytes s f (sequence_of sessions.now streams.old f) number sample.now))
        × (out.new ≡ put_bytes out.old 0 (says_bytes s f (sequence_of sessions.now streams.old f) number sample.now)) }
{
    match s {
        Says::Status(code) => {
            put_status(out, 0, f.session_id, f.stream_id, number, code);
            11
        }
        Says::Data => say_data(sessions, streams, held, out, sample, f, number),
    }
}

// Whether the run begins with an answer, and its session is live.
fn answers_now(
    resumes: Option<(ObjectNumber, Task, BridgeAnswer)>,
    got: Result<Option<ClientSession>, Refusal>,
) -> bool
    ensures { result ≡ answers_now resumes got }
{
    resumes.is_some() && matches!(got, Ok(Some(_)))
}

// What the answer that a run begins with lists and says, and for which object: taken apart by value (decision 80), as `told_by` of
// specs/Host.antt has it.
#[derive(Clone, Copy, Debug, PartialEq, Eq)]
struct Told {
    pub keeps: Option<Object>,
    pub says: Says,
    pub number: ObjectNumber,
}

fn told_by(resumes: Option<(ObjectNumber, Task, BridgeAnswer)>) -> Told
    ensures { result ≡ told_by resumes }
{
    match resumes {
        None => Told {
            keeps: None,
            says: Says::Status(StatusCode::Ok),
            number: ObjectNumber(0),
        },
        Some((number, task, told)) => Told {
            keeps: what_keeps(number, task, told),
            says: what_says(task, told),
            number,
        },
    }
}

// The answer's part of a call, if it is one: "The same rules give the reply"; an answer touches no session.
pub(crate) fn begin(stores: &mut Stores, out: &mut [u8], sample: &[u8], start: Start) -> usize
    requires { Prepared start sample.now }
    ensures wrote { result ≡ length (joined_replies (begun_by start.resumes stores.old.sessions.now stores.old.streams.now start.frame sample.now)) }
    ensures stores { stores_of stores.new ≡ begun start (stores_of stores.old) sample.now }
    ensures out { out.new ≡ put_replies start.frame.room out.old 0 (begun_by start.resumes stores.old.sessions.now stores.old.streams.now start.frame sample.now) }
    ensures places { SamePlaces stores.old stores.new }
{
    let frame = start.frame;
    let resumes = start.resumes;
    let id = frame.session_id;
    let sessions = &mut *stores.sessions;
    let got = get(sessions, id);
    if answers_now(resumes, got) {
        let t = told_by(resumes);
        let n = say(
            sessions,
            stores.streams,
            stores.held,
            out,
            sample,
            frame,
            t.number,
            t.says,
        );
        keep(sessions, stores.objects, id, t.keeps);
        n
    } else {
        0
    }
}
