// The agent between two calls of the host, beside the lent tables.
use codec::submessages::ObjectNumber;
use moves::proxy::Task;

// What the host gives with a datagram: its time in milliseconds, and its weekday and minute (document 02, W8).
#[derive(Clone, Copy, Debug, PartialEq, Eq)]
pub struct Given {
    pub time: u64,
    pub day: u8,
    pub minute: u16,
}

// What a datagram's submessages go by, those behind a bridge answer too: its time, and whether its minute is open, which is looked up once, when it comes.
#[derive(Clone, Copy, Debug, PartialEq, Eq)]
pub struct Moment {
    pub time: u64,
    pub is_open: bool,
}

// The submessage of the open call: its header's session and stream, its object, what the call is for, the place behind it
// in its datagram, and that datagram's moment. If it was rebuilt from fragments (document 02, W6), the call shows parts of the first
// `left_end` rebuilt bytes, and the submessages from `left_at` on wait behind it; else both are 0. Two numbers, and no Option: the C record holds any pair, and 16 is asked of them as they stand.
#[derive(Clone, Copy, Debug, PartialEq, Eq)]
pub struct Pending {
    pub session_id: u8,
    pub stream_id: u8,
    pub number: ObjectNumber,
    pub task: Task,
    pub at: usize,
    pub moment: Moment,
    pub left_at: usize,
    pub left_end: usize,
}

// Its limits, the id pointer, and the open bridge call.
#[derive(Clone, Copy, Debug, PartialEq, Eq)]
pub struct Agent {
    pub max_clients: usize,
    pub timeout_ms: u64,
    pub next: u8,
    pub waits: Option<Pending>,
}
