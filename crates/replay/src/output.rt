// The lent output: the pattern that it is filled with, and the replies that stand in it.
ghost use Rattle.std.specs.Prelude.{◌≤◌, ◌<◌, length};
ghost use Rattle.std.specs.Iterator.{at_most};

use std::io;
use std::io::Write;

// The pattern; its period divides no reply's length.
fn mark(i: usize) -> u8 {
    (i % 251) as u8
}

// Lends as much of a store as a script's number asks for, at most all of it, filled with the pattern: a longer result is refused
// as 13.
pub fn lend(out: &mut [u8], asked: u64) -> &mut [u8] {
    let room = asked.min(out.len() as u64) as usize;
    let lent = &mut out[..room];
    for (i, b) in lent.iter_mut().enumerate() {
        *b = mark(i);
    }
    lent
}

// The first `n` bytes.
pub fn front(bytes: &[u8], n: usize) -> &[u8] {
    bytes.get(..n).unwrap_or(b"")
}

fn is_marked(out: &[u8], from: usize) -> bool {
    out.iter()
        .enumerate()
        .skip(from)
        .all(|(i, b)| *b == mark(i))
}

// Says so if a byte changed behind the result.
pub fn moved(to: &mut impl Write, out: &[u8], wrote: usize) -> io::Result<()> {
    if is_marked(out, wrote) {
        return Ok(());
    }
    writeln!(to, "moved")
}

// How long the first reply is: its header, its submessage's header and its payload.
fn reply_len(out: &[u8]) -> usize
    requires { 0 < length out.now }
    ensures some { 0 < result }
    ensures within { result ≤ length out.now }
{
    match out {
        [_, _, _, _, _, _, low, high, ..] => {
            let payload = u16::from_le_bytes([*low, *high]);
            out.len().min(8 + usize::from(payload))
        }
        _ => out.len(),
    }
}

// The replies that stand one behind the other.
#[derive(Clone, Copy, Debug)]
pub struct Replies<'a>(pub &'a [u8]);

impl<'a> Iterator for Replies<'a> {
    type Item = &'a [u8];

    ghost remaining = { λ s. at_most (length s.0.now) };

    fn next(&mut self) -> Option<&'a [u8]> {
        if self.0.is_empty() {
            return None;
        }
        let (reply, behind) = self.0.split_at(reply_len(self.0));
        self.0 = behind;
        Some(reply)
    }
}
