// What a line asks for: its first word names the command, and the words behind it are its numbers and its bytes.
use crate::words::{bytes, number, number_8, number_16, word};
use std::alloc::AllocError;

// What a command gives, in the order of the format.
#[derive(Clone, Copy, Debug)]
pub enum Command<'a> {
    Unknown,
    Message(&'a [u8]),
    Encode(&'a [u8]),
    Decode(&'a [u8]),
    Cut(usize, &'a [u8]),
    Store(u16, u16),
    Insert(u16, &'a [u8]),
    Has(u16),
    Counts,
    Assemble,
    Stream(u8, u16, u16),
    Alloc,
    Record(u16, &'a [u8]),
    Acknack(u16, u16),
    Heartbeat,
    Receive(u16),
    MakeAcknack(u16, u16),
    Held,
    Table(usize, u64),
    Create(&'a [u8], u64),
    Touch(u8, u64),
    Expired(u8, u64, u64),
    Sweep(u64),
    Remove(u8),
    Live,
    Open(u8, u8),
    Dump,
}

// Reads a line; the command's bytes, where it has any, are put in `given`. A line that is empty or begins with # asks nothing.
pub fn parse<'a>(line: &[u8], given: &'a mut Vec<u8>) -> Result<Option<Command<'a>>, AllocError> {
    let command = match word(line, 0) {
        [] | [b'#', ..] => return Ok(None),
        b"message" => Command::Message(bytes(line, 1, given)?),
        b"encode" => Command::Encode(bytes(line, 1, given)?),
        b"decode" => Command::Decode(bytes(line, 1, given)?),
        b"cut" => Command::Cut(number(line, 1) as usize, bytes(line, 2, given)?),
        b"store" => Command::Store(number_16(line, 1), number_16(line, 2)),
        b"insert" => Command::Insert(number_16(line, 1), bytes(line, 2, given)?),
        b"has" => Command::Has(number_16(line, 1)),
        b"counts" => Command::Counts,
        b"assemble" => Command::Assemble,
        b"stream" => Command::Stream(number_8(line, 1), number_16(line, 2), number_16(line, 3)),
        b"alloc" => Command::Alloc,
        b"record" => Command::Record(number_16(line, 1), bytes(line, 2, given)?),
        b"acknack" => Command::Acknack(number_16(line, 1), number_16(line, 2)),
        b"heartbeat" => Command::Heartbeat,
        b"receive" => Command::Receive(number_16(line, 1)),
        b"make_acknack" => Command::MakeAcknack(number_16(line, 1), number_16(line, 2)),
        b"held" => Command::Held,
        b"table" => Command::Table(number(line, 1) as usize, number(line, 2)),
        b"create" => Command::Create(bytes(line, 1, given)?, number(line, 2)),
        b"touch" => Command::Touch(number_8(line, 1), number(line, 2)),
        b"expired" => Command::Expired(number_8(line, 1), number(line, 2), number(line, 3)),
        b"sweep" => Command::Sweep(number(line, 1)),
        b"remove" => Command::Remove(number_8(line, 1)),
        b"live" => Command::Live,
        b"open" => Command::Open(number_8(line, 1), number_8(line, 2)),
        b"dump" => Command::Dump,
        _ => Command::Unknown,
    };
    Ok(Some(command))
}
