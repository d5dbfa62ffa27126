// What a call told, as the other eight numbers of the record; and the record written whole.
ghost use Rattle.std.specs.Prelude.{◌≡◌, Ok};
ghost use Rattle.cabi.specs.Record.{told, nothing_told, call_told, told_of, kept_in, records_after};

use crate::record::{Record, RecordRow};
use agent::process::{Outcome, Processed};
use codec::layouts::Span;
use moves::proxy::BridgeCall;

// The bytes replied, and the bridge call, if there is one.
#[derive(Clone, Copy, Debug, Default, PartialEq, Eq)]
pub(crate) struct Told {
    pub wrote: u64,
    pub call: u64,
    pub handle: u64,
    pub topic: u64,
    pub start: u64,
    pub len: u64,
    pub type_start: u64,
    pub type_len: u64,
}

// A call with handles and no parts of the bytes that its submessage stands in.
fn told_handles(wrote: u64, call: u64, handle: u64, topic: u64) -> Told
    ensures { result ≡ told wrote call handle topic 0 0 0 0 }
{
    Told {
        wrote,
        call,
        handle,
        topic,
        ..Told::default()
    }
}

fn told_part(wrote: u64, call: u64, handle: u64, part: Span) -> Told
    ensures { result ≡ told wrote call handle 0 part.start part.len 0 0 }
{
    Told {
        start: part.start as u64,
        len: part.len as u64,
        ..told_handles(wrote, call, handle, 0)
    }
}

fn told_parts(wrote: u64, call: u64, handle: u64, part: Span, second: Span) -> Told
    ensures { result ≡ told wrote call handle 0 part.start part.len second.start second.len }
{
    Told {
        type_start: second.start as u64,
        type_len: second.len as u64,
        ..told_part(wrote, call, handle, part)
    }
}

fn call_told(call: BridgeCall, n: u64) -> Told
    ensures { result ≡ call_told call n }
{
    match call {
        BridgeCall::CreateParticipant(domain) => told_handles(n, 1, domain as u64, 0),
        BridgeCall::CreateTopic(p, name, kind) => told_parts(n, 2, p.0 as u64, name, kind),
        BridgeCall::CreateWriter(p, t) => told_handles(n, 3, p.0 as u64, t.0 as u64),
        BridgeCall::CreateReader(p, t) => told_handles(n, 4, p.0 as u64, t.0 as u64),
        BridgeCall::WriteData(h, body) => told_part(n, 5, h.0 as u64, body),
        BridgeCall::ReadData(h) => told_handles(n, 6, h.0 as u64, 0),
        BridgeCall::DeleteEntity(h) => told_handles(n, 7, h.0 as u64, 0),
    }
}

#[tactic(auto, unfolding(crate::specs::Record::nothing_told))]
pub(crate) fn nothing_told(n: u64) -> Told
    ensures { result ≡ nothing_told n }
{
    told_handles(n, 0, 0, 0)
}

#[tactic(auto, unfolding(crate::specs::Record::told_of))]
fn told_of(o: Outcome) -> Told
    ensures { result ≡ told_of (Ok o) }
{
    match o {
        Outcome::Replied(n) => nothing_told(n as u64),
        Outcome::Called(call, n) => call_told(call, n as u64),
    }
}

// The record is written whole; where none is lent nothing is.
pub(crate) fn keep_record(rows: &mut [RecordRow], r: Record, t: Told)
    ensures { rows.new ≡ kept_in rows.old r t }
{
    if let Some(first) = rows.first_mut() {
        *first = [
            r.max_clients,
            r.timeout_ms,
            r.next,
            r.task,
            r.kind,
            r.parent,
            r.session,
            r.stream,
            r.number,
            r.at,
            r.time,
            r.is_open,
            r.left_at,
            r.left_end,
            t.wrote,
            t.call,
            t.handle,
            t.topic,
            t.start,
            t.len,
            t.type_start,
            t.type_len,
        ];
    }
}

// A refused call leaves the record as it was.
pub(crate) fn keep_processed(rows: &mut [RecordRow], p: Processed)
    ensures { rows.new ≡ records_after rows.old p }
{
    if let Ok(outcome) = p.outcome {
        keep_record(rows, p.agent.into(), told_of(outcome));
    }
}
