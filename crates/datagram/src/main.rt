// Document 01's small program: the first 4,096 bytes of standard input as one datagram, and the lines that say what it says.
#![tactic(auto)]

ghost use Rattle.std.specs.Prelude.{◌<◌, ◌≤◌, length, take, IfOk};
ghost use Rattle.std.specs.Io.KnownBytes.{Consumes, IsAtEnd};

use std::io;
use std::io::Read;

// Fills `place` with what is read, and says how much of it: less than the whole at the end of the input alone.
fn read_full<R: Read>(input: &mut R, place: &mut [u8]) -> io::Result<usize>
    ensures within { IfOk result (λ n. n ≤ length place.new) }
    ensures bytes { IfOk result (λ n. Consumes (R.remaining input.old) (R.remaining input.new) (take n place.new)) }
    ensures end { IfOk result (λ n. n < length place.new → IsAtEnd (R.remaining input.new)) }
{
    // Not `read_to_end`: the page of promises names this function, and an edit (bytes_read_over) changes its loop.
    let mut n = 0;
    while n < place.len() {
        let more = input.read(&mut place[n..])?;
        if more == 0 {
            return Ok(n);
        }
        n += more;
    }
    Ok(n)
}

fn main(rt: HostRuntime) -> io::Result<()> {
    // An array and a count, no Vec: the promise of `read_full` is of such a place.
    let mut datagram = [0u8; 4096];
    let n = read_full(&mut rt.reader(), &mut datagram)?;
    let mut out = [0u8; 65536];
    match listing::lines(&datagram[..n], &mut out) {
        Ok(k) => rt.write_all(&out[..k]),
        Err(why) => println!(rt; "refused {}", why.number()),
    }
}
