// Answers commands for the layers below the agent: one command a line on standard input, one or more lines for each answer.
// The format stands in oracle/README.md. It is the program that the original Rust is compared with.
#![tactic(auto)]

mod command;
mod print;
mod store;
mod stream;
mod submessages;
mod table;
mod wire;
mod words;

use command::{Command, parse};
use std::alloc::{AllocError, Global};
use std::io;
use std::io::{BufRead, BufReader, LineWriter, Read, Write};
use store::Store;
use stream::Stream;
use table::Table;

// How long a line may be: a datagram of 65,543 bytes takes twice as many digits. What is past it is the next line.
const LONGEST_LINE: usize = 140_000;

// Puts the next line in `line`, and says whether there was one: what stands behind the last newline is none.
fn next_line(from: &mut impl BufRead, line: &mut Vec<u8>) -> io::Result<bool> {
    line.clear();
    let len = Read::take(from, LONGEST_LINE as u64).read_until(b'\n', line)?;
    Ok(len == LONGEST_LINE || line.ends_with(b"\n"))
}

// What the commands work on.
#[derive(Drop)]
struct Layers {
    store: Store,
    stream: Stream,
    table: Table,
}

impl Layers {
    fn new(alloc: Global) -> Result<Self, AllocError> {
        Ok(Layers {
            store: Store::new(alloc)?,
            stream: Stream::new(alloc)?,
            table: Table::new(alloc)?,
        })
    }

    fn answer(&mut self, to: &mut impl Write, command: Command<'_>) -> io::Result<()> {
        match command {
            Command::Unknown => writeln!(to, "bad line"),
            Command::Message(datagram) => wire::message(to, datagram),
            Command::Encode(text) => wire::encode(to, text),
            Command::Decode(bytes) => wire::decode(to, bytes),
            Command::Cut(size, payload) => wire::cut(to, payload, size),
            Command::Store(total, width) => self.store.renew(to, total, width),
            Command::Insert(nr, body) => self.store.insert(to, nr, body),
            Command::Has(nr) => self.store.has(to, nr),
            Command::Counts => self.store.counts(to),
            Command::Assemble => self.store.assemble(to),
            Command::Stream(id, next, expected) => self.stream.renew(to, id, next, expected),
            Command::Alloc => self.stream.alloc(to),
            Command::Record(seq, message) => self.stream.record(to, seq, message),
            Command::Acknack(first, bitmap) => self.stream.acknowledge(to, first, bitmap),
            Command::Heartbeat => self.stream.heartbeat(to),
            Command::Receive(seq) => self.stream.receive(to, seq),
            Command::MakeAcknack(first, last) => self.stream.make_acknack(to, first, last),
            Command::Held => self.stream.held(to),
            Command::Table(max_clients, timeout) => self.table.renew(to, max_clients, timeout),
            Command::Create(key, time) => self.table.create(to, key, time),
            Command::Touch(id, time) => self.table.touch(to, id, time),
            Command::Expired(id, timeout, time) => self.table.expired(to, id, timeout, time),
            Command::Sweep(time) => self.table.sweep(to, time),
            Command::Remove(id) => self.table.remove(to, id),
            Command::Live => self.table.live(to),
            Command::Open(id, stream) => self.table.open(to, id, stream),
            Command::Dump => self.table.dump(to),
        }
    }
}

// Reads and answers until the input ends. A proved loop has to end, so its turns are counted.
fn run(from: &mut impl BufRead, to: &mut impl Write, alloc: Global) -> io::Result<()> {
    let mut layers = Layers::new(alloc)?;
    let mut line = Vec::with_capacity(alloc, LONGEST_LINE)?;
    let mut given = Vec::with_capacity(alloc, LONGEST_LINE / 2)?;
    for _ in 0..u64::MAX {
        if !next_line(from, &mut line)? {
            break;
        }
        if let Some(command) = parse(&line, &mut given)? {
            layers.answer(to, command)?;
        }
    }
    Ok(())
}

// Each line of an answer is written out as it ends.
fn main(rt: HostRuntime) -> io::Result<()> {
    let alloc = rt.alloc();
    run(
        &mut BufReader::new(alloc, rt.reader())?,
        &mut LineWriter::new(alloc, io::writer(&rt))?,
        alloc,
    )
}
