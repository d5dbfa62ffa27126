// The lines of many datagrams, one behind the other on standard input, each led by its length (4 bytes, low byte first).
// tools/datagrams.py makes the input and, by its own reading of the layouts, what is to be printed.
#![tactic(auto)]

ghost use Rattle.std.specs.Prelude.{◌≤◌, IfOk, IsTrue};
ghost use Rattle.std.specs.Io.KnownBytes.{Consumes};

use std::io;
use std::io::{ErrorKind, Read};

// The most datagrams of a file, and the most bytes of one.
const MOST: usize = 1000;

const ROOM: usize = 70000;

// Room for its lines: a submessage has 4 bytes at least, and its line 22 at most.
const LINES: usize = 400000;

// The length that leads a datagram, of which three bytes count, and no more than there is room for.
fn length_of(lead: [u8; 4]) -> usize
    ensures { result ≤ ROOM }
{
    let [a, b, c, _] = lead;
    let n = u32::from_le_bytes([a, b, c, 0]);
    (n as usize).min(ROOM)
}

// Prints the lines of a datagram.
fn show(rt: &impl Print, datagram: &[u8], out: &mut [u8]) -> io::Result<()> {
    match listing::lines(datagram, out) {
        Ok(k) => rt.write_all(&out[..k]),
        Err(why) => println!(rt; "refused {}", why.number()),
    }
}

// Fills `place` with what is read; false where the input ends before.
fn read_full<R: Read>(input: &mut R, place: &mut [u8]) -> io::Result<bool>
    ensures { IfOk result (λ whole. IsTrue whole → Consumes (R.remaining input.old) (R.remaining input.new) place.new) }
{
    match input.read_exact(place) {
        Ok(()) => Ok(true),
        Err(e) if e.kind() == ErrorKind::UnexpectedEof => Ok(false),
        Err(e) => Err(e),
    }
}

// Reads one datagram and prints its lines; false at the end of the input.
fn one(
    rt: &impl Print,
    input: &mut impl Read,
    room: &mut [u8; ROOM],
    out: &mut [u8],
) -> io::Result<bool> {
    let mut lead = [0u8; 4];
    if !read_full(input, &mut lead)? {
        return Ok(false);
    }
    let datagram = &mut room[..length_of(lead)];
    if !read_full(input, datagram)? {
        return Ok(false);
    }
    show(rt, datagram, out)?;
    Ok(true)
}

fn main(rt: HostRuntime) -> io::Result<()> {
    let mut input = rt.reader();
    let mut room = [0u8; ROOM];
    let mut out = [0u8; LINES];
    for _ in 0..MOST {
        if !one(&rt, &mut input, &mut room, &mut out)? {
            break;
        }
    }
    Ok(())
}
