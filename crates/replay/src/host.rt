// The host's side of the agent: what it holds between two events, and what it prints of an outcome.
use crate::calls::Call;
use crate::dump::dump;
use crate::event::Event;
use crate::lines::LONGEST_LINE;
use crate::output::{Replies, front, lend, moved};
use crate::print::{Hex, bad_line, refused};
use crate::stores::Stores;
use crate::words::decode;
use agent::agent::{evict_expired, first_open, list_objects, remove_session};
use agent::process::{Outcome, Processed};
use agent::state::{Agent, Given};
use hours::windows::WindowRow;
use moves::proxy::BridgeAnswer;
use std::alloc::{AllocError, Global};
use std::io::Write;
use std::{io, mem};

// A longest line has digits for so many bytes, so that what is decoded needs no memory later.
const LONGEST_DATAGRAM: usize = LONGEST_LINE / 2;

// What the numbers lent to a listing are filled with.
const MARK: u16 = 999;

fn replies(to: &mut impl Write, out: &[u8], n: usize) -> io::Result<()> {
    moved(to, out, n)?;
    for reply in Replies(front(out, n)) {
        writeln!(to, "reply {}", Hex(reply))?;
    }
    Ok(())
}

// The replies, then the call or the end; or the refusal. A call shows parts of the datagram, or of the rebuilt bytes that its
// submessage stands in (document 02, W6).
fn say(
    to: &mut impl Write,
    out: &[u8],
    datagram: &[u8],
    rebuilt: &[u8],
    p: Processed,
) -> io::Result<()> {
    match p.outcome {
        Ok(Outcome::Replied(n)) => {
            replies(to, out, n)?;
            writeln!(to, "end")
        }
        Ok(Outcome::Called(call, n)) => {
            replies(to, out, n)?;
            let bytes = match p.agent.waits {
                Some(waits) if waits.left_end != 0 => front(rebuilt, waits.left_end),
                _ => datagram,
            };
            writeln!(to, "{}", Call { call, bytes })
        }
        Err(r) => {
            moved(to, out, 0)?;
            refused(to, r)
        }
    }
}

// The agent, once it is set up, with all that it is lent; the bytes that came last, of a datagram or of an answer; and the datagram of its open call.
#[derive(Drop)]
pub struct Host {
    agent: Option<Agent>,
    stores: Stores,
    out: Vec<u8>,
    datagram: Vec<u8>,
    called: Vec<u8>,
}

impl Host {
    // The output holds all that the longest line can be answered with, 11 bytes for every 6, but for repeats: those of 63
    // ACKNACKs, 16 messages of 1,024 bytes to each.
    pub fn new(alloc: Global) -> Result<Self, AllocError> {
        Ok(Host {
            agent: None,
            stores: Stores::new(alloc)?,
            out: vec![in alloc; 0; 1048576]?,
            datagram: Vec::with_capacity(alloc, LONGEST_DATAGRAM)?,
            called: Vec::with_capacity(alloc, LONGEST_DATAGRAM)?,
        })
    }

    // An event before the first `setup` isn't in the format.
    pub fn answer(&mut self, to: &mut impl Write, event: Event<'_>) -> io::Result<()> {
        match (self.agent, event) {
            (_, Event::SetUp(max, timeout, windows)) => self.set_up(to, max, timeout, &windows),
            (None, _) => bad_line(to),
            (Some(agent), Event::Datagram(given, room, digits)) => {
                self.incoming(to, agent, given, room, digits)
            }
            (Some(agent), Event::Answer(room, answer, digits)) => {
                self.answered(to, agent, answer, room, digits)
            }
            (Some(agent), Event::Remove(id)) => self.remove(to, agent, id),
            (Some(agent), Event::Sweep(time, room)) => self.sweep(to, agent, time, room),
            (Some(_), Event::List(id)) => self.list(to, id),
            (Some(_), Event::Open(day, minute)) => self.open(to, day, minute),
            (Some(_), Event::Dump) => dump(to, &self.stores),
        }
    }

    // A refused `setup` keeps the agent that was there.
    fn set_up(
        &mut self,
        to: &mut impl Write,
        max_clients: usize,
        timeout_ms: u64,
        windows: &[WindowRow],
    ) -> io::Result<()> {
        match self.stores.setup(windows, max_clients, timeout_ms) {
            Ok(agent) => {
                self.agent = Some(agent);
                self.called.clear();
                writeln!(to, "ok")
            }
            Err(r) => refused(to, r),
        }
    }

    // The datagram of a call that was just handed out is kept in the older one's place.
    fn incoming(
        &mut self,
        to: &mut impl Write,
        agent: Agent,
        given: Given,
        room: u64,
        digits: &[u8],
    ) -> io::Result<()> {
        decode(digits, &mut self.datagram)?;
        let out = lend(&mut self.out, room);
        let p = self.stores.incoming(out, &self.datagram, agent, given);
        self.agent = Some(p.agent);
        say(to, out, &self.datagram, &self.stores.rebuilt, p)?;
        if let Ok(Outcome::Called(_, _)) = p.outcome {
            mem::swap(&mut self.called, &mut self.datagram);
        }
        Ok(())
    }

    fn answered(
        &mut self,
        to: &mut impl Write,
        agent: Agent,
        answer: BridgeAnswer,
        room: u64,
        digits: &[u8],
    ) -> io::Result<()> {
        decode(digits, &mut self.datagram)?;
        let out = lend(&mut self.out, room);
        let p = self
            .stores
            .answered(out, &self.called, &self.datagram, agent, answer);
        self.agent = Some(p.agent);
        say(to, out, &self.called, &self.stores.rebuilt, p)
    }

    fn remove(&mut self, to: &mut impl Write, agent: Agent, id: u8) -> io::Result<()> {
        match remove_session(&mut self.stores.sessions, agent, id) {
            Ok(true) => writeln!(to, "removed"),
            Ok(false) => writeln!(to, "absent"),
            Err(r) => refused(to, r),
        }
    }

    fn sweep(&mut self, to: &mut impl Write, agent: Agent, time: u64, room: u64) -> io::Result<()> {
        let out = lend(&mut self.out, room);
        match evict_expired(&mut self.stores.sessions, out, agent, time) {
            Ok(n) => {
                moved(to, out, n)?;
                write!(to, "swept")?;
                for id in front(out, n) {
                    write!(to, " {id}")?;
                }
                writeln!(to)
            }
            Err(r) => {
                moved(to, out, 0)?;
                refused(to, r)
            }
        }
    }

    // No session has more than 32 objects.
    fn list(&self, to: &mut impl Write, id: u8) -> io::Result<()> {
        let mut numbers = [MARK; 32];
        let listed = list_objects(
            &self.stores.sessions,
            &self.stores.objects,
            &mut numbers,
            id,
        );
        if numbers.iter().skip(listed.unwrap_or(0)).any(|n| *n != MARK) {
            writeln!(to, "moved")?;
        }
        match listed {
            Ok(n) => {
                write!(to, "listed")?;
                for number in numbers.iter().take(n) {
                    write!(to, " {number}")?;
                }
                writeln!(to)
            }
            Err(r) => refused(to, r),
        }
    }

    fn open(&self, to: &mut impl Write, day: u8, minute: u16) -> io::Result<()> {
        match first_open(&self.stores.hours, day, minute) {
            Ok(Some((day, minute))) => writeln!(to, "open {day} {minute}"),
            Ok(None) => writeln!(to, "never"),
            Err(r) => refused(to, r),
        }
    }
}
