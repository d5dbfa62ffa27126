// The agent's record as a C host keeps it: the first fourteen of its twenty-two numbers are the agent between two calls.
ghost use Rattle.std.specs.Prelude.{◌≡◌};
ghost use Rattle.cabi.specs.Record.{agent_at, task_in, pending_in, in_range, task_number, task_kind, task_parent, open_record};

use agent::state::{Agent, Moment, Pending};
use codec::refusals::Refusal;
use codec::submessages::ObjectNumber;
use moves::proxy::Task;

pub(crate) type RecordRow = [u64; 22];

// The fourteen numbers; of the open call its task (0: none), the object kind and the parent number of a CREATE's, its
// session, stream, object number and place, its datagram's time and whether that datagram's minute is open (document 02, W8: 1,
// else closed), and, if its submessage was rebuilt from fragments, the place behind it in the rebuilt bytes and how many these
// are.
#[derive(Clone, Copy, Debug, Default, PartialEq, Eq)]
pub(crate) struct Record {
    pub max_clients: u64,
    pub timeout_ms: u64,
    pub next: u64,
    pub task: u64,
    pub kind: u64,
    pub parent: u64,
    pub session: u64,
    pub stream: u64,
    pub number: u64,
    pub at: u64,
    pub time: u64,
    pub is_open: u64,
    pub left_at: u64,
    pub left_end: u64,
}

impl From<&RecordRow> for Record {
    ghost use Rattle.cabi.specs.Record.{record_of};

    ghost from_gives = { λ row r. r ≡ record_of row.now };

    fn from(row: &RecordRow) -> Record {
        Record {
            max_clients: row[0],
            timeout_ms: row[1],
            next: row[2],
            task: row[3],
            kind: row[4],
            parent: row[5],
            session: row[6],
            stream: row[7],
            number: row[8],
            at: row[9],
            time: row[10],
            is_open: row[11],
            left_at: row[12],
            left_end: row[13],
        }
    }
}

// The agent that the first record lent says; 16 where there is none.
pub(crate) fn agent_at(rows: &[RecordRow]) -> Result<Agent, Refusal>
    ensures { result ≡ agent_at rows.now }
{
    let row = rows.first().ok_or(Refusal::OverLimit)?;
    Ok(Record::from(row).into())
}

// ---- the agent that it says

fn task_in(n: u64, kind: u64, parent: u64) -> Task
    ensures { result ≡ task_in n kind parent }
{
    match n {
        1 => Task::Creating((kind % 256) as u8, (parent % 65536) as u16),
        2 => Task::Writing,
        3 => Task::Reading,
        _ => Task::Deleting,
    }
}

fn pending_in(r: Record) -> Pending
    ensures { result ≡ pending_in r }
{
    Pending {
        session_id: (r.session % 256) as u8,
        stream_id: (r.stream % 256) as u8,
        number: ObjectNumber((r.number % 65536) as u16),
        task: task_in(r.task, r.kind, r.parent),
        at: r.at as usize,
        moment: Moment {
            time: r.time,
            is_open: r.is_open == 1,
        },
        left_at: r.left_at as usize,
        left_end: r.left_end as usize,
    }
}

// Whether every number is one that its field can have.
fn in_range(r: Record) -> bool
    ensures { result ≡ in_range r }
{
    r.next <= 255
        && r.task <= 4
        && r.kind <= 255
        && r.session <= 255
        && r.stream <= 255
        && r.number <= 65535
        && r.parent <= 65535
}

// A number that its field can't have is read as an id pointer of 0, which the agent refuses as 16 right after 15.
impl From<Record> for Agent {
    ghost use Rattle.cabi.specs.Record.{agent_in};

    ghost from_gives = { λ r a. a ≡ agent_in r };

    #[tactic(auto, unfolding(crate::specs::Record::agent_in))]
    fn from(r: Record) -> Agent {
        let next = if in_range(r) { (r.next % 256) as u8 } else { 0 };
        let waits = if r.task == 0 {
            None
        } else {
            Some(pending_in(r))
        };
        Agent {
            max_clients: r.max_clients as usize,
            timeout_ms: r.timeout_ms,
            next,
            waits,
        }
    }
}

// ---- the numbers of an agent

// The task's number, and the kind and the parent number of a CREATE's.
fn task_numbers(t: Task) -> (u64, u64, u64)
    ensures { result ≡ (task_number t, task_kind t, task_parent t) }
{
    match t {
        Task::Creating(kind, parent) => (1, u64::from(kind), u64::from(parent)),
        Task::Writing => (2, 0, 0),
        Task::Reading => (3, 0, 0),
        Task::Deleting => (4, 0, 0),
    }
}

fn open_record(idle: Record, p: Pending) -> Record
    ensures { result ≡ open_record idle.max_clients idle.timeout_ms idle.next p }
{
    let (task, kind, parent) = task_numbers(p.task);
    Record {
        task,
        kind,
        parent,
        session: p.session_id as u64,
        stream: p.stream_id as u64,
        number: p.number.0 as u64,
        at: p.at as u64,
        time: p.moment.time,
        is_open: u64::from(p.moment.is_open),
        left_at: p.left_at as u64,
        left_end: p.left_end as u64,
        ..idle
    }
}

impl From<Agent> for Record {
    ghost use Rattle.cabi.specs.Record.{record_for};

    ghost from_gives = { λ a r. r ≡ record_for a };

    #[tactic(auto, unfolding(crate::specs::Record::record_for))]
    fn from(a: Agent) -> Record {
        let idle = Record {
            max_clients: a.max_clients as u64,
            timeout_ms: a.timeout_ms,
            next: a.next as u64,
            ..Record::default()
        };
        match a.waits {
            None => idle,
            Some(p) => open_record(idle, p),
        }
    }
}
