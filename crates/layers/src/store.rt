// Commands for one reassembly buffer.
use crate::print::{refused, yes};
use crate::wire::{ROOM, written};
use codec::reassembly::ReassemblyBuffer;
use std::alloc::{AllocError, Global};
use std::io;
use std::io::Write;

// The buffer with the fragments that it holds and their lengths. A refused call leaves the buffer that there was.
#[derive(Drop)]
pub struct Store {
    buffer: ReassemblyBuffer,
    slots: Vec<u8>,
    lengths: Vec<u32>,
}

impl Store {
    pub fn new(alloc: Global) -> Result<Self, AllocError> {
        Ok(Store {
            buffer: ReassemblyBuffer {
                total_fragments: 0,
                received_count: 0,
                width: 0,
            },
            slots: vec![in alloc; 0; 65536]?,
            lengths: vec![in alloc; 0; 65536]?,
        })
    }

    pub fn renew(&mut self, to: &mut impl Write, total: u16, width: u16) -> io::Result<()> {
        match ReassemblyBuffer::new(total, width, &self.slots, &mut self.lengths) {
            Ok(made) => {
                self.buffer = made;
                writeln!(to, "ok")
            }
            Err(r) => refused(to, r),
        }
    }

    pub fn insert(&mut self, to: &mut impl Write, nr: u16, body: &[u8]) -> io::Result<()> {
        match self
            .buffer
            .insert(&mut self.slots, &mut self.lengths, nr, body)
        {
            Ok((next, all)) => {
                self.buffer = next;
                writeln!(to, "{}", if all { "complete" } else { "incomplete" })
            }
            Err(r) => refused(to, r),
        }
    }

    pub fn has(&self, to: &mut impl Write, nr: u16) -> io::Result<()> {
        yes(to, self.buffer.has_fragment(&self.lengths, nr))
    }

    pub fn counts(&self, to: &mut impl Write) -> io::Result<()> {
        let received = self.buffer.received_count();
        let total = self.buffer.total_fragments();
        writeln!(to, "counts {received} {total}")
    }

    pub fn assemble(&self, to: &mut impl Write) -> io::Result<()> {
        let mut made = [0; ROOM];
        let w = self.buffer.assemble(&self.slots, &self.lengths, &mut made);
        written(to, "payload", w, &made)
    }
}
