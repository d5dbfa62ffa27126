// The table of sessions: a row of numbers for each id, 256 of them, of which row 0 is unused.
ghost use Rattle.std.specs.Prelude.{◌≡◌};
ghost use Rattle.sessions.specs.Table.{new_session, ended_session, touched_session, expired_of, session_of, row_of, session_at, keep_session, named_of, got_of, reached_of, kept_rows, touched_rows, ended_rows};

use crate::need::SESSIONS;
use codec::refusals::Refusal;

// The row of an id: the numbers of `ClientSession`, in its order.
pub type SessionRow = [u64; 8];

// What the table keeps of a session, in numbers only, as a C host lends the rows. `live` is 0 where the id is free; the counts say how many of the session's
// object records and stream records are in use; the slot says which part of the stores by slot is the session's (document 02, W5);
// `total` and `received` are those of its fragments, 0 while it has none (document 02, W6).
#[derive(Clone, Copy, Debug, Default, PartialEq, Eq)]
pub struct ClientSession {
    pub live: u64,
    pub client_key: u64,
    pub last_activity: u64,
    pub objects: u64,
    pub streams: u64,
    pub slot: u64,
    pub total: u64,
    pub received: u64,
}

impl ClientSession {
    // A session as it is opened: no objects, and stream 0.
    pub(crate) fn new(client_key: u32, time: u64, slot: usize) -> ClientSession
        ensures { result ≡ new_session client_key time slot }
    {
        ClientSession {
            live: 1,
            client_key: client_key as u64,
            last_activity: time,
            streams: 1,
            slot: slot as u64,
            ..ClientSession::default()
        }
    }

    // What a session leaves behind: nothing.
    pub(crate) fn ended() -> ClientSession
        ensures { result ≡ ended_session }
    {
        ClientSession::default()
    }

    pub(crate) fn touched(self, time: u64) -> ClientSession
        ensures { result ≡ touched_session self time }
    {
        ClientSession {
            last_activity: time,
            ..self
        }
    }

    // Expired once more than the timeout has passed since the last activity; none has if the clock went back.
    pub fn is_expired(self, time: u64, timeout_ms: u64) -> bool
        ensures { result ≡ expired_of self time timeout_ms }
    {
        timeout_ms < time.saturating_sub(self.last_activity)
    }
}

impl From<&SessionRow> for ClientSession {
    ghost from_gives = { λ row s. s ≡ session_of row.now };

    fn from(row: &SessionRow) -> ClientSession {
        ClientSession {
            live: row[0],
            client_key: row[1],
            last_activity: row[2],
            objects: row[3],
            streams: row[4],
            slot: row[5],
            total: row[6],
            received: row[7],
        }
    }
}

impl From<ClientSession> for SessionRow {
    ghost from_gives = { λ s row. row ≡ row_of s };

    fn from(s: ClientSession) -> SessionRow {
        [
            s.live,
            s.client_key,
            s.last_activity,
            s.objects,
            s.streams,
            s.slot,
            s.total,
            s.received,
        ]
    }
}

// Any number may stand in a row; past the table's end all are 0.
pub(crate) fn session_at(sessions: &[SessionRow], id: u8) -> ClientSession
    ensures { result ≡ session_at sessions.now id }
{
    match sessions.get(id as usize) {
        Some(row) => ClientSession::from(row),
        None => ClientSession::ended(),
    }
}

// A row is written whole; past the table's end nothing is.
pub(crate) fn keep_session(sessions: &mut [SessionRow], id: u8, s: ClientSession)
    ensures { sessions.new ≡ keep_session sessions.old id s }
{
    let i = id as usize;
    if i < sessions.len() {
        sessions[i] = SessionRow::from(s);
    }
}

// Whether a session is live under that id.
#[tactic(auto, unfolding(crate::specs::Table::named_of))]
pub fn live_at(sessions: &[SessionRow], id: u8) -> Result<bool, Refusal>
    ensures { result ≡ named_of sessions.now id }
{
    if sessions.len() < SESSIONS {
        return Err(Refusal::OverLimit);
    }
    Ok(session_at(sessions, id).live != 0)
}

// The session that is live under that id, as the table keeps it.
#[tactic(auto, unfolding(crate::specs::Table::got_of))]
pub fn get(sessions: &[SessionRow], id: u8) -> Result<Option<ClientSession>, Refusal>
    ensures { result ≡ got_of sessions.now id }
{
    if !live_at(sessions, id)? {
        return Ok(None);
    }
    Ok(Some(session_at(sessions, id)))
}

// Whether there are records of a session to look into: it is live, its store is as long as it must be, and no more of
// its records are in use than there are.
#[tactic(auto, unfolding(crate::specs::Table::reached_of, crate::specs::Table::records_fit))]
pub(crate) fn reached(
    sessions: &[SessionRow],
    id: u8,
    used: u64,
    most: u64,
    store: usize,
    need: usize,
) -> Result<bool, Refusal>
    ensures { result ≡ reached_of sessions.now id used most store need }
{
    if store < need || most < used {
        return Err(Refusal::OverLimit);
    }
    live_at(sessions, id)
}

// Where a session is live under that id, it becomes `s`.
fn keep_live(sessions: &mut [SessionRow], id: u8, s: ClientSession) -> Result<bool, Refusal>
    ensures { (result ≡ named_of sessions.old id)
        × (sessions.new ≡ kept_rows (named_of sessions.old id) sessions.old id s) }
{
    let live = live_at(sessions, id)?;
    if live {
        keep_session(sessions, id, s);
    }
    Ok(live)
}

// A live session's last activity becomes `time`, even backwards.
#[tactic(auto, unfolding(crate::specs::Table::touched_rows))]
pub fn touch(sessions: &mut [SessionRow], id: u8, time: u64) -> Result<bool, Refusal>
    ensures { (result ≡ named_of sessions.old id)
        × (sessions.new ≡ touched_rows sessions.old id time) }
{
    let s = session_at(sessions, id).touched(time);
    keep_live(sessions, id, s)
}

// Ends a live session. Its id is free again, and nothing is left of it.
#[tactic(auto, unfolding(crate::specs::Table::ended_rows))]
pub fn remove(sessions: &mut [SessionRow], id: u8) -> Result<bool, Refusal>
    ensures { (result ≡ named_of sessions.old id)
        × (sessions.new ≡ ended_rows sessions.old id) }
{
    let s = ClientSession::ended();
    keep_live(sessions, id, s)
}
