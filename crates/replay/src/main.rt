// Drives an agent from a script on standard input and prints what came back: oracle/REPLAY.md has the format. The bridge's
// answers stand in the script too, so that the same script gives the same lines whoever answers it.
#![tactic(auto)]

mod calls;
mod dump;
mod event;
mod host;
mod lines;
mod output;
mod print;
mod stores;
mod windows;
mod words;

use event::{Fault, parse};
use host::Host;
use lines::{LONGEST_LINE, next_line};
use print::bad_line;
use std::alloc::{AllocError, Global};
use std::io;
use std::io::{BufRead, BufReader, LineWriter, Write};

fn answer(host: &mut Host, to: &mut impl Write, alloc: Global, line: &[u8]) -> io::Result<()> {
    match parse(alloc, line) {
        Ok(Some(event)) => host.answer(to, event),
        Ok(None) => Ok(()),
        Err(Fault::NotInFormat) => bad_line(to),
        Err(Fault::OutOfMemory) => Err(AllocError.into()),
    }
}

// Reads and answers until the input ends. A proved loop has to end, so its turns are counted.
fn run(from: &mut impl BufRead, to: &mut impl Write, alloc: Global) -> io::Result<()> {
    let mut host = Host::new(alloc)?;
    let mut line = Vec::with_capacity(alloc, LONGEST_LINE + 1)?;
    for _ in 0..u64::MAX {
        if !next_line(from, &mut line)? {
            break;
        }
        answer(&mut host, to, alloc, &line)?;
    }
    Ok(())
}

// Each line is written out as it ends.
fn main(rt: HostRuntime) -> io::Result<()> {
    let alloc = rt.alloc();
    run(
        &mut BufReader::new(alloc, rt.reader())?,
        &mut LineWriter::new(alloc, io::writer(&rt))?,
        alloc,
    )
}
