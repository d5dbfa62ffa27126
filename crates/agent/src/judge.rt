// What refuses a call before it runs, in document 01's order: 15, 16, 20 (document 02, W8), 1 to 5, 12, 14.
ghost use Rattle.std.specs.Prelude.{◌≡◌, true, cond, get_or, length};
ghost use Rattle.agent.specs.Judge.{turn_of, session_of, stream_of, record_sound, too_long, sample_slot, answer_slot, datagram_start, answer_start, left_kept, datagram_judged, answer_judged, judge_of};
ghost use Rattle.agent.specs.Stores.{stores_of};

use crate::fragments::rebuilt_part;
use crate::state::{Agent, Given, Moment, Pending};
use crate::stores::Stores;
use crate::turn::Frame;
use codec::header::MessageHeader;
use codec::reading::{check, count_at};
use codec::rebuilt::count_rebuilt;
use codec::refusals::Refusal;
use codec::submessages::ObjectNumber;
use hours::week::{is_minute, is_open};
use moves::proxy::{BridgeAnswer, Task, fits};
use sessions::limits::within_limits;
use sessions::sending::data_slot;

// A call of the host: a datagram, or the bridge's answer. No Option: a datagram is no answer that is missing.
#[derive(Clone, Copy, Debug, PartialEq, Eq)]
pub enum Input {
    Datagram,
    Answer(BridgeAnswer),
}

// The call in its turn, with the submessage that it answers.
#[derive(Clone, Copy, Debug, PartialEq, Eq)]
enum Turn {
    Datagram,
    Answer(Pending, BridgeAnswer),
}

// Where a run starts: in its datagram, and before that in the rebuilt bytes whose submessages wait (document 02, W6).
#[derive(Clone, Copy, Debug, PartialEq, Eq)]
pub(crate) struct Start {
    pub frame: Frame,
    pub next: u8,
    pub at: usize,
    pub left_at: usize,
    pub left_end: usize,
    // A triple, as specs/Host.antt takes it apart.
    pub resumes: Option<(ObjectNumber, Task, BridgeAnswer)>,
}

// 15: "While a bridge call is open, datagrams .. are out of turn"; "answer, no call open", "or answer of another kind".
fn whose_turn(a: Agent, input: Input) -> Result<Turn, Refusal>
    ensures { result ≡ turn_of a.waits input }
{
    match (a.waits, input) {
        (None, Input::Datagram) => Ok(Turn::Datagram),
        (Some(p), Input::Answer(told)) if fits(p.task, told) => Ok(Turn::Answer(p, told)),
        _ => Err(Refusal::OutOfTurn),
    }
}

// The session that the call names, and its stream.
fn named(d: &[u8], turn: Turn) -> (u8, u8)
    ensures { result ≡ (session_of d.now (Ok turn), stream_of d.now (Ok turn)) }
{
    match turn {
        Turn::Datagram => (byte_at(d, 0), byte_at(d, 1)),
        Turn::Answer(p, _) => (p.session_id, p.stream_id),
    }
}

fn byte_at(d: &[u8], i: usize) -> u8
    ensures { result ≡ get_or d.now i 0 }
{
    d.get(i).copied().unwrap_or(0)
}

// 16, of the record.
pub(crate) fn sound_record(a: Agent) -> bool
    ensures { result ≡ record_sound a }
{
    a.max_clients <= 255 && a.next != 0
}

fn start_datagram(a: Agent, moment: Moment, header: MessageHeader, room: usize) -> Start
    ensures { result ≡ datagram_start a moment header room }
{
    let frame = Frame {
        max_clients: a.max_clients,
        moment,
        session_id: header.session_id,
        stream_id: header.stream_id,
        room,
    };
    Start {
        frame,
        next: a.next,
        at: 4,
        left_at: 0,
        left_end: 0,
        resumes: None,
    }
}

// 16, of the store of the week's minutes; then 20, then 1 to 5
fn judge_datagram(
    hours: &[u8],
    d: &[u8],
    a: Agent,
    given: Given,
    room: usize,
) -> Result<(Start, usize), Refusal>
    requires { record_sound a ≡ true }
    ensures { result ≡ datagram_judged hours.now d.now a (Ok tt) given room }
{
    if hours.len() < 10080 {
        return Err(Refusal::OverLimit);
    }
    if !is_minute(given.day, given.minute) {
        return Err(Refusal::NoSuchMinute);
    }
    let (header, n) = check(d)?;
    let moment = Moment {
        time: given.time,
        is_open: is_open(hours, given.day, given.minute),
    };
    Ok((start_datagram(a, moment, header, room), n))
}

fn start_answer(a: Agent, p: Pending, told: BridgeAnswer, room: usize) -> Start
    ensures { result ≡ answer_start a p told room }
{
    let moment = p.moment;
    let frame = Frame {
        max_clients: a.max_clients,
        moment,
        session_id: p.session_id,
        stream_id: p.stream_id,
        room,
    };
    let number = p.number;
    let task = p.task;
    Start {
        frame,
        next: a.next,
        at: p.at,
        left_at: p.left_at,
        left_end: p.left_end,
        resumes: Some((number, task, told)),
    }
}

// 14: the DATA that would be held has over 1,024 bytes, ten of them before the sample, or finds no place (document 02, W5).
fn sample_slot(stores: &Stores, p: Pending, sample: usize) -> Result<Option<usize>, Refusal>
    ensures { result ≡ sample_slot p stores.now.sessions.now stores.now.streams.now (length stores.now.held.now) sample }
{
    if p.stream_id == 0 {
        return Ok(None);
    }
    if 1014 < sample {
        return Err(Refusal::StoreFull);
    }
    data_slot(
        stores.sessions,
        stores.streams,
        stores.held.len(),
        p.session_id,
        p.stream_id,
        10 + sample,
    )
}

// 12: the DATA that a sample would need; then 14.
fn judge_sample(
    stores: &Stores,
    p: Pending,
    told: BridgeAnswer,
    sample: usize,
) -> Result<Option<usize>, Refusal>
    ensures { result ≡ cond (too_long told sample) (Err Refusal.TooLong) (answer_slot p told stores.now.sessions.now stores.now.streams.now (length stores.now.held.now) sample) }
{
    match told {
        BridgeAnswer::Sample => {
            if 65533 < sample {
                return Err(Refusal::TooLong);
            }
            sample_slot(stores, p, sample)
        }
        BridgeAnswer::Created(_)
        | BridgeAnswer::Done
        | BridgeAnswer::NoSample
        | BridgeAnswer::Failed => Ok(None),
    }
}

// The rebuilt bytes must read from the open call's place to their end, with none that is barred there (document 02, W6).
fn left_kept(left: &[u8], p: Pending) -> bool
    ensures { result ≡ left_kept left.now p }
{
    p.left_end <= 32768 && p.left_at <= left.len() && count_rebuilt(left, p.left_at).is_ok()
}

// The datagram lent again must read from the open call's place to its end, and so must the rebuilt bytes, else 16. The place of a
// reply that would be held is looked for here, so that the answer isn't taken apart twice.
fn judge_answer(
    stores: &Stores,
    d: &[u8],
    a: Agent,
    p: Pending,
    told: BridgeAnswer,
    sample: usize,
    room: usize,
) -> Result<(Start, usize), Refusal>
    requires { record_sound a ≡ true }
    ensures { result ≡ answer_judged d.now stores.now.rebuilt.now a (Ok tt) p told sample (answer_slot p told stores.now.sessions.now stores.now.streams.now (length stores.now.held.now) sample) room }
{
    let left = rebuilt_part(stores.rebuilt, p.left_end);
    if !left_kept(left, p) || d.len() < p.at {
        return Err(Refusal::OverLimit);
    }
    let header = MessageHeader {
        session_id: p.session_id,
        stream_id: p.stream_id,
        sequence_nr: 0,
    };
    let Ok((_, n)) = count_at(d, header, p.at) else {
        return Err(Refusal::OverLimit);
    };
    judge_sample(stores, p, told, sample)?;
    Ok((start_answer(a, p, told, room), n))
}

// 15, then 16, then what the call's turn asks.
#[tactic(auto, unfolding(crate::specs::Judge::judge_of))]
pub(crate) fn judge(
    stores: &Stores,
    hours: &[u8],
    d: &[u8],
    a: Agent,
    input: Input,
    given: Given,
    sample: usize,
    room: usize,
) -> Result<(Start, usize), Refusal>
    ensures { result ≡ judge_of (stores_of stores.now) hours.now d.now a input given sample room }
{
    let turn = whose_turn(a, input)?;
    let (id, n) = named(d, turn);
    let limits = within_limits(
        stores.sessions,
        stores.streams,
        stores.objects,
        stores.held.len(),
        stores.parts.len(),
        stores.lengths,
        stores.rebuilt.len(),
        a.max_clients,
        id,
        n,
    );
    if limits.is_err() || !sound_record(a) {
        return Err(Refusal::OverLimit);
    }
    match turn {
        Turn::Datagram => judge_datagram(hours, d, a, given, room),
        Turn::Answer(p, told) => judge_answer(stores, d, a, p, told, sample, room),
    }
}
