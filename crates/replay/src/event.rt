// A line as an event, every word of it checked.
use crate::lines::is_too_long;
use crate::windows::{open_week, windows};
use crate::words::{digits, is_space, number};
use agent::state::Given;
use hours::windows::WindowRow;
use moves::proxy::BridgeAnswer;
use sessions::objects::Handle;
use std::alloc::{AllocError, AllocFailed, Global};

// Why a line gives no event.
#[derive(Clone, Copy, Debug, PartialEq, Eq)]
pub enum Fault {
    NotInFormat,
    OutOfMemory,
}

impl From<AllocError> for Fault {
    fn from(_: AllocError) -> Fault {
        Fault::OutOfMemory
    }
}

impl<T: Drop> From<AllocFailed<T>> for Fault {
    fn from(_: AllocFailed<T>) -> Fault {
        Fault::OutOfMemory
    }
}

// What an event gives, in the order of the format. The bytes of a datagram and of a sample are still digits, two a byte.
#[derive(Drop)]
pub enum Event<'a> {
    SetUp(usize, u64, Vec<WindowRow>),
    Datagram(Given, u64, &'a [u8]),
    Answer(u64, BridgeAnswer, &'a [u8]),
    Remove(u8),
    Sweep(u64, u64),
    List(u8),
    Open(u8, u16),
    Dump,
}

// The number that the first word gives by that name, and the words behind it; 0 and all the words where it doesn't.
fn named<'w, 'a>(words: &'w [&'a [u8]], name: &[u8]) -> (&'a [u8], &'w [&'a [u8]]) {
    if let [first, behind @ ..] = words
        && let Some(given) = first.strip_prefix(name)
    {
        return (given, behind);
    }
    (b"0", words)
}

// What comes with a datagram beside its time (document 02, W8): NAME=NUMBER, each once at most and in one order.
fn minute(words: &[&[u8]]) -> Result<(u8, u16), Fault> {
    let (day, behind) = named(words, b"day=");
    let (minute, behind) = named(behind, b"minute=");
    if !behind.is_empty() {
        return Err(Fault::NotInFormat);
    }
    Ok((number(day)?, number(minute)?))
}

// `words` are those of the line, or its first ones where it has more than an event without windows.
fn in_words<'a>(alloc: Global, line: &'a [u8], words: &[&'a [u8]]) -> Result<Event<'a>, Fault> {
    Ok(match words {
        [b"setup", max, timeout] => {
            Event::SetUp(number(max)?, number(timeout)?, open_week(alloc)?)
        }
        [b"setup", max, timeout, b"windows", ..] => {
            Event::SetUp(number(max)?, number(timeout)?, windows(alloc, line)?)
        }
        [b"datagram", time, room, bytes, more @ ..] => {
            let time = number(time)?;
            let (day, minute) = minute(more)?;
            Event::Datagram(Given { time, day, minute }, number(room)?, digits(bytes)?)
        }
        [b"created", room, handle] => {
            let handle = Handle(number(handle)?);
            Event::Answer(number(room)?, BridgeAnswer::Created(handle), b"")
        }
        [b"done", room] => Event::Answer(number(room)?, BridgeAnswer::Done, b""),
        [b"data", room, bytes] => {
            Event::Answer(number(room)?, BridgeAnswer::Sample, digits(bytes)?)
        }
        [b"none", room] => Event::Answer(number(room)?, BridgeAnswer::NoSample, b""),
        [b"failed", room] => Event::Answer(number(room)?, BridgeAnswer::Failed, b""),
        [b"remove", id] => Event::Remove(number(id)?),
        [b"sweep", time, room] => Event::Sweep(number(time)?, number(room)?),
        [b"list", id] => Event::List(number(id)?),
        [b"open", day, minute] => Event::Open(number(day)?, number(minute)?),
        [b"dump"] => Event::Dump,
        _ => return Err(Fault::NotInFormat),
    })
}

// One word more than an event without windows has at most.
const WORDS: usize = 7;

// Reads a line. One that is empty or begins with # asks nothing. Its words stand in an array: a line may have a million of them.
pub fn parse<'a>(alloc: Global, line: &'a [u8]) -> Result<Option<Event<'a>>, Fault> {
    if line.is_empty() || line.starts_with(b"#") {
        return Ok(None);
    }
    if is_too_long(line) {
        return Err(Fault::NotInFormat);
    }
    let mut words = [b"".as_slice(); WORDS];
    let mut n = 0;
    for word in line.split(is_space) {
        if n < WORDS {
            words[n] = word;
            n += 1;
        }
    }
    Ok(Some(in_words(alloc, line, &words[..n.min(WORDS)])?))
}
