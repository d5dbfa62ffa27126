// Commands for the codec: what a datagram says, strings, and fragments.
use crate::print::{Hex, refused};
use crate::submessages::submessage;
use codec::cutting::{fragment, fragment_count};
use codec::header::MessageHeader;
use codec::layouts::Cursor;
use codec::reading::{check, part, read};
use codec::refusals::Refusal;
use codec::strings::{decode_string, encode_string};
use codec::writing::write_submessage;
use std::io;
use std::io::Write;

// Room for the longest result, a submessage of 65,535 bytes with its headers.
pub const ROOM: usize = 66_000;

// The first `n` bytes.
fn front(made: &[u8], n: usize) -> &[u8] {
    made.get(..n).unwrap_or(b"")
}

// The bytes that a call wrote at the start of `made`, after the name, or its refusal.
pub fn written(
    to: &mut impl Write,
    name: &str,
    w: Result<usize, Refusal>,
    made: &[u8],
) -> io::Result<()> {
    match w {
        Ok(n) => writeln!(to, "{name} {}", Hex(front(made, n))),
        Err(r) => refused(to, r),
    }
}

// A line for each of the datagram's submessages, and the message written back. The datagram was checked, so no submessage is
// refused here.
fn submessages(
    to: &mut impl Write,
    datagram: &[u8],
    header: MessageHeader,
    count: usize,
    made: &mut [u8],
) -> io::Result<()> {
    let mut next = Cursor { at: 4 };
    let mut end = header.write(made, 0).unwrap_or(0);
    for _ in 0..count {
        if let Ok((m, span, behind)) = read(datagram, next) {
            let body = part(datagram, span);
            submessage(to, m, body)?;
            end = end.wrapping_add(write_submessage(made, end, m, body).unwrap_or(0));
            next = behind;
        }
    }
    writeln!(to, "written {}", Hex(front(made, end)))
}

// What a datagram says, and how it is written back.
pub fn message(to: &mut impl Write, datagram: &[u8]) -> io::Result<()> {
    match check(datagram) {
        Ok((h, count)) => {
            writeln!(
                to,
                "header {} {} {}",
                h.session_id, h.stream_id, h.sequence_nr
            )?;
            submessages(to, datagram, h, count, &mut [0; ROOM])
        }
        Err(r) => refused(to, r),
    }
}

pub fn encode(to: &mut impl Write, text: &[u8]) -> io::Result<()> {
    let mut made = [0; ROOM];
    let w = encode_string(&mut made, 0, text);
    written(to, "string", w, &made)
}

// The text, and how many bytes it took with its length.
pub fn decode(to: &mut impl Write, s: &[u8]) -> io::Result<()> {
    match decode_string(s, 0) {
        Ok(span) => {
            let text = Hex(part(s, span));
            writeln!(to, "string {text} {}", span.len.wrapping_add(2))
        }
        Err(r) => refused(to, r),
    }
}

// Each fragment, from the first to the last.
fn fragments(to: &mut impl Write, payload: &[u8], size: usize, total: u16) -> io::Result<()> {
    let mut made = [0; ROOM];
    for k in 0..total {
        let w = fragment(payload, size, k, &mut made);
        written(to, "fragment", w, &made)?;
    }
    writeln!(to, "end {total}")
}

pub fn cut(to: &mut impl Write, payload: &[u8], size: usize) -> io::Result<()> {
    match fragment_count(payload, size) {
        Ok(total) => fragments(to, payload, size, total),
        Err(r) => refused(to, r),
    }
}
