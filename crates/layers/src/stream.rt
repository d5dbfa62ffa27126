// Commands for one stream: its counters, what it holds and what it asks for.
use crate::print::{Hex, refused, yes};
use std::alloc::{AllocError, Global};
use std::io;
use std::io::Write;
use streams::state::StreamState;

// The stream, and the store of the messages that it holds.
#[derive(Drop)]
pub struct Stream {
    state: StreamState,
    messages: Vec<u8>,
}

impl Stream {
    pub fn new(alloc: Global) -> Result<Self, AllocError> {
        Ok(Stream {
            state: StreamState::new(0),
            messages: vec![in alloc; 0; 16384]?,
        })
    }

    // A stream with nothing held and these two counters.
    pub fn renew(
        &mut self,
        to: &mut impl Write,
        id: u8,
        next: u16,
        expected: u16,
    ) -> io::Result<()> {
        let mut state = StreamState::new(id);
        state.next_send_seq = next;
        state.next_recv_seq = expected;
        self.state = state;
        writeln!(to, "ok")
    }

    pub fn alloc(&mut self, to: &mut impl Write) -> io::Result<()> {
        let r = self.state.alloc_send_seq();
        self.state = r.state;
        writeln!(to, "sequence {}", r.seq)
    }

    pub fn record(&mut self, to: &mut impl Write, seq: u16, message: &[u8]) -> io::Result<()> {
        let r = self.state.record_sent(seq, message, &mut self.messages);
        self.state = r.state;
        match r.slot {
            Ok(_) => writeln!(to, "ok"),
            Err(x) => refused(to, x),
        }
    }

    // How many messages the bitmap asks for, how many are repeated (document 02, W5), and their numbers.
    pub fn acknowledge(&mut self, to: &mut impl Write, first: u16, bitmap: u16) -> io::Result<()> {
        let r = self.state.process_acknack(first, bitmap);
        self.state = r.state;
        write!(to, "repeat {} {}", r.asked, r.count)?;
        for seq in r.repeats.iter().take(r.count) {
            write!(to, " {seq}")?;
        }
        writeln!(to)
    }

    pub fn receive(&mut self, to: &mut impl Write, seq: u16) -> io::Result<()> {
        let r = self.state.check_recv_seq(seq);
        self.state = r.state;
        yes(to, r.accepted)
    }

    pub fn heartbeat(&self, to: &mut impl Write) -> io::Result<()> {
        let h = self.state.make_heartbeat();
        writeln!(to, "heartbeat {} {}", h.first_unacked_seq, h.last_seq)
    }

    pub fn make_acknack(&self, to: &mut impl Write, first: u16, last: u16) -> io::Result<()> {
        let a = self.state.make_acknack(first, last);
        writeln!(to, "acknack {} {}", a.first_unacked_seq, a.nack_bitmap)
    }

    // The messages stand in sixteen places, and a place whose length is 0 holds none.
    pub fn held(&self, to: &mut impl Write) -> io::Result<()> {
        let s = self.state;
        counters(to, s)?;
        for (seq, len) in s.numbers.iter().zip(&s.lengths) {
            if *len != 0 {
                writeln!(
                    to,
                    "held {seq} {}",
                    Hex(s.held_message(*seq, &self.messages))
                )?;
            }
        }
        writeln!(
            to,
            "end {}",
            s.lengths.iter().filter(|len| **len != 0).count()
        )
    }
}

// A stream's number, the next to send and the one expected.
pub fn counters(to: &mut impl Write, s: StreamState) -> io::Result<()> {
    writeln!(
        to,
        "stream {} {} {}",
        s.stream_id, s.next_send_seq, s.next_recv_seq
    )
}
