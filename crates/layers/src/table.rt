// Commands for the session table.
use crate::print::{Key, refused, yes};
use crate::stream::counters;
use codec::refusals::Refusal;
use sessions::opening::{create_session, len};
use sessions::session_streams::{StreamNamed, StreamOpened, open_stream, read_stream};
use sessions::stream_rows::StreamRow;
use sessions::sweep::evict_expired;
use sessions::table::{ClientSession, SessionRow, get, remove, touch};
use std::alloc::{AllocError, Global};
use std::io;
use std::io::Write;

// A client's key: four bytes as one number, low byte first; 0 where fewer are given.
fn key_of(bytes: &[u8]) -> u32 {
    match bytes.first_chunk() {
        Some(wire) => u32::from_le_bytes(*wire),
        None => 0,
    }
}

// The name where the session is live.
fn named(to: &mut impl Write, found: Result<bool, Refusal>, name: &str) -> io::Result<()> {
    match found {
        Ok(true) => writeln!(to, "{name}"),
        Ok(false) => writeln!(to, "absent"),
        Err(r) => refused(to, r),
    }
}

// The tables, what they are set up with, and the id from which the next free one is looked for.
#[derive(Drop)]
pub struct Table {
    sessions: Vec<SessionRow>,
    streams: Vec<StreamRow>,
    max_clients: usize,
    timeout_ms: u64,
    next: u8,
}

impl Table {
    pub fn new(alloc: Global) -> Result<Self, AllocError> {
        Ok(Table {
            sessions: vec![in alloc; [0; 8]; 256]?,
            streams: vec![in alloc; [0; 35]; 2048]?,
            max_clients: 0,
            timeout_ms: 0,
            next: 1,
        })
    }

    // An empty table: whatever session was live is ended.
    pub fn renew(
        &mut self,
        to: &mut impl Write,
        max_clients: usize,
        timeout_ms: u64,
    ) -> io::Result<()> {
        for id in 1..=255 {
            let _ = remove(&mut self.sessions, id);
        }
        self.max_clients = max_clients;
        self.timeout_ms = timeout_ms;
        self.next = 1;
        writeln!(to, "ok")
    }

    pub fn create(&mut self, to: &mut impl Write, key: &[u8], time: u64) -> io::Result<()> {
        match create_session(
            &mut self.sessions,
            &mut self.streams,
            self.max_clients,
            self.next,
            key_of(key),
            time,
        ) {
            Ok((id, next)) => {
                self.next = next;
                writeln!(to, "session {id}")
            }
            Err(r) => refused(to, r),
        }
    }

    pub fn touch(&mut self, to: &mut impl Write, id: u8, time: u64) -> io::Result<()> {
        named(to, touch(&mut self.sessions, id, time), "ok")
    }

    pub fn remove(&mut self, to: &mut impl Write, id: u8) -> io::Result<()> {
        named(to, remove(&mut self.sessions, id), "removed")
    }

    pub fn expired(
        &self,
        to: &mut impl Write,
        id: u8,
        timeout_ms: u64,
        time: u64,
    ) -> io::Result<()> {
        match get(&self.sessions, id) {
            Ok(Some(s)) => yes(to, s.is_expired(time, timeout_ms)),
            Ok(None) => writeln!(to, "absent"),
            Err(r) => refused(to, r),
        }
    }

    pub fn sweep(&mut self, to: &mut impl Write, time: u64) -> io::Result<()> {
        let mut ids = [0; 255];
        match evict_expired(&mut self.sessions, time, self.timeout_ms, &mut ids) {
            Ok(n) => {
                write!(to, "swept")?;
                for id in ids.iter().take(n) {
                    write!(to, " {id}")?;
                }
                writeln!(to)
            }
            Err(r) => refused(to, r),
        }
    }

    pub fn live(&self, to: &mut impl Write) -> io::Result<()> {
        match len(&self.sessions) {
            Ok(n) => writeln!(to, "live {n}"),
            Err(r) => refused(to, r),
        }
    }

    pub fn open(&mut self, to: &mut impl Write, id: u8, stream: u8) -> io::Result<()> {
        match open_stream(&mut self.sessions, &mut self.streams, id, stream) {
            Ok(StreamOpened::Open) => writeln!(to, "ok"),
            Ok(StreamOpened::Full) => writeln!(to, "full"),
            Ok(StreamOpened::NotLive) => writeln!(to, "absent"),
            Err(r) => refused(to, r),
        }
    }

    // A session, and a line for each of its streams: it has those whose numbers are open.
    fn dump_session(&self, to: &mut impl Write, id: u8, s: ClientSession) -> io::Result<()> {
        let key = Key(s.client_key);
        writeln!(to, "session {id} {key} {}", s.last_activity)?;
        for n in 0..=255 {
            let r = read_stream(&self.sessions, &self.streams, id, n);
            if let Ok(StreamNamed::Open) = r.answer {
                counters(to, r.state)?;
            }
        }
        Ok(())
    }

    // Each live session with what it holds, ids ascending.
    pub fn dump(&self, to: &mut impl Write) -> io::Result<()> {
        for id in 1..=255 {
            match get(&self.sessions, id) {
                Ok(Some(s)) => self.dump_session(to, id, s)?,
                Ok(None) => (),
                Err(r) => refused(to, r)?,
            }
        }
        writeln!(to, "dumped")
    }
}
