// What the host lends for the sessions: the rows and records of each store, and their bytes, counted by their fields.
ghost use Rattle.std.specs.Prelude.{◌≡◌, ◌≤◌};
ghost use Rattle.sessions.specs.Need.{need_of, needed_for, stores_fit};

use codec::refusals::Refusal;
use streams::state::BUFFER_BYTES;

// The most objects and streams of a session, stream 0 included.
pub(crate) const MOST_OBJECTS: usize = 32;

pub(crate) const MOST_STREAMS: usize = 8;

// A row for each id, 0 to 255, and one for each stream and object that a session may hold.
pub(crate) const SESSIONS: usize = 256;

pub(crate) const STREAMS: usize = SESSIONS * MOST_STREAMS;

pub(crate) const OBJECTS: usize = SESSIONS * MOST_OBJECTS;

// The bytes of held messages of a client: 16 messages of 1,024 bytes for each of its streams but stream 0 (document 02, W5).
pub(crate) const HELD: usize = (MOST_STREAMS - 1) * BUFFER_BYTES;

// Of a client's fragments (document 02, W6): 64 bodies of up to 512 bytes, and a length for each.
pub(crate) const PARTS: usize = LENGTHS * 512;

pub(crate) const LENGTHS: usize = 64;

// The place of rebuilt bytes: as many as a client's fragments may have.
pub(crate) const REBUILT: usize = PARTS;

// The minutes of the week, a byte each (document 02, W8).
pub(crate) const HOURS: usize = 7 * 1440;

// What doesn't grow with the clients: a session's row is eight numbers of 8 bytes, a stream's 35 of 2 bytes.
const TABLES: usize = SESSIONS * (8 * 8)
    + STREAMS * (35 * 2)
    + OBJECTS * (2 + 1 + 1 + 4 + 2)
    + REBUILT
    + HOURS;

#[derive(Clone, Copy, Debug, PartialEq, Eq)]
pub struct Need {
    pub sessions: usize,
    pub streams: usize,
    pub objects: usize,
    pub held: usize,
    pub parts: usize,
    pub lengths: usize,
    pub rebuilt: usize,
    pub hours: usize,
    pub bytes: usize,
}

// Rows and records are by id, whatever `max_clients` is; held messages and fragments are by slot; rebuilt bytes and the week's minutes have one place.
pub(crate) fn stores_need(max_clients: usize) -> Need
    requires { max_clients ≤ 255 }
    ensures { result ≡ need_of max_clients }
{
    let held = HELD * max_clients;
    let parts = PARTS * max_clients;
    let lengths = LENGTHS * max_clients;
    Need {
        sessions: SESSIONS,
        streams: STREAMS,
        objects: OBJECTS,
        held,
        parts,
        lengths,
        rebuilt: REBUILT,
        hours: HOURS,
        bytes: TABLES + held + parts + 4 * lengths,
    }
}

// What the host must lend for that many clients: a store under its need is refused as 16, and so is `max_clients` over 255.
#[tactic(auto, unfolding(crate::specs::Need::needed_for))]
pub fn documented_need(max_clients: usize) -> Result<Need, Refusal>
    ensures { result ≡ needed_for max_clients }
{
    if 255 < max_clients {
        return Err(Refusal::OverLimit);
    }
    Ok(stores_need(max_clients))
}

// Whether each of the sessions' seven lent stores has at least as many rows, records or bytes as it needs; the week's minutes are the agent's to ask.
#[tactic(auto, unfolding(crate::specs::Need::stores_fit))]
pub fn stores_fit(
    sessions: usize,
    streams: usize,
    objects: usize,
    held: usize,
    parts: usize,
    lengths: usize,
    rebuilt: usize,
    max_clients: usize,
) -> bool
    ensures { result ≡ stores_fit sessions streams objects held parts lengths rebuilt max_clients }
{
    max_clients <= 255
        && SESSIONS <= sessions
        && STREAMS <= streams
        && OBJECTS <= objects
        && HELD * max_clients <= held
        && PARTS * max_clients <= parts
        && LENGTHS * max_clients <= lengths
        && REBUILT <= rebuilt
}
