// The bridge of proxy.rs: its seven calls and their answers as values. The agent hands out a call, the host hands in the
// answer. A call takes a `Handle` alone, so an object number never stands where a bridge handle is due; names and data are
// parts of the datagram.
ghost use Rattle.std.specs.Prelude.{◌≡◌, []};
ghost use Rattle.moves.specs.Calls.{fits};
ghost use Rattle.moves.specs.Proxy.{answer_as, task_as};

use codec::layouts::Span;
use sessions::objects::Handle;

#[derive(Clone, Copy, Debug, PartialEq, Eq)]
pub enum BridgeCall {
    CreateParticipant(u16),
    CreateTopic(Handle, Span, Span),
    CreateWriter(Handle, Handle),
    CreateReader(Handle, Handle),
    WriteData(Handle, Span),
    ReadData(Handle),
    DeleteEntity(Handle),
}

// A handle; success without a value; a sample, whose bytes are lent beside; no sample; failure.
#[derive(Clone, Copy, Debug, PartialEq, Eq)]
pub enum BridgeAnswer {
    Created(Handle),
    Done,
    Sample,
    NoSample,
    Failed,
}

// What an open call is for: a CREATE, of an object kind and with a parent number, a WRITE_DATA, a READ_DATA, a DELETE.
// The kind is its byte, as in the record of numbers that a C host keeps for the open call.
#[derive(Debug, Clone, Copy, PartialEq, Eq)]
pub enum Task {
    Creating(u8, u16),
    Writing,
    Reading,
    Deleting,
}

// Whether an answer is of the call's kind; any other is 15.
pub fn fits(task: Task, answer: BridgeAnswer) -> bool
    ensures { result ≡ fits (task_as task) (answer_as answer []) }
{
    match task {
        Task::Creating(_, _) => matches!(answer, BridgeAnswer::Created(_) | BridgeAnswer::Failed),
        Task::Writing | Task::Deleting => {
            matches!(answer, BridgeAnswer::Done | BridgeAnswer::Failed)
        }
        Task::Reading => matches!(
            answer,
            BridgeAnswer::Sample | BridgeAnswer::NoSample | BridgeAnswer::Failed
        ),
    }
}
