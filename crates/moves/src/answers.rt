// The bridge's answer to a session's call: what it lists, and what is replied.
ghost use Rattle.std.specs.Prelude.{◌≡◌};
ghost use Rattle.moves.specs.Answers.{keeps_of, says_of, kept_sessions, kept_objects};

use crate::proxy::{BridgeAnswer, Task};
use codec::submessages::{ObjectNumber, StatusCode};
use sessions::objects::Object;
use sessions::session_objects::put_object;
use sessions::table::SessionRow;

// What it replies: a STATUS, or the sample as DATA.
#[derive(Clone, Copy, Debug, PartialEq, Eq)]
pub enum Says {
    Status(StatusCode),
    Data,
}

pub fn what_keeps(number: ObjectNumber, task: Task, answer: BridgeAnswer) -> Option<Object>
    ensures { result ≡ keeps_of number task answer }
{
    if let Task::Creating(kind, parent) = task
        && let BridgeAnswer::Created(h) = answer
    {
        Some(Object::bridged(number, kind, h, parent))
    } else {
        None
    }
}

// "A read without data answers STATUS OK."; a call that failed answers ERR_UNKNOWN_REF to a DELETE, else ERR_INVALID_DATA.
pub fn what_says(task: Task, answer: BridgeAnswer) -> Says
    ensures { result ≡ says_of task answer }
{
    match (task, answer) {
        (Task::Reading, BridgeAnswer::Sample) => Says::Data,
        (Task::Creating(_, _), BridgeAnswer::Created(_))
        | (Task::Writing | Task::Deleting, BridgeAnswer::Done)
        | (Task::Reading, BridgeAnswer::NoSample) => Says::Status(StatusCode::Ok),
        (Task::Deleting, _) => Says::Status(StatusCode::ErrUnknownRef),
        _ => Says::Status(StatusCode::ErrInvalidData),
    }
}

pub fn keep(sessions: &mut [SessionRow], objects: &mut [Object], id: u8, k: Option<Object>)
    ensures { (sessions.new ≡ kept_sessions k sessions.old objects.old id)
        × (objects.new ≡ kept_objects k sessions.old objects.old id) }
{
    if let Some(o) = k {
        // Where there is no place for it, the reply is the same.
        let _ = put_object(sessions, objects, id, o);
    }
}
