// The lines of the input.
use std::io;
use std::io::{BufRead, Read};

// A line holds a datagram of seven longest payloads. A longer line is a bad one.
pub const LONGEST_LINE: usize = 1_048_576;

pub fn is_too_long(line: &[u8]) -> bool {
    LONGEST_LINE < line.len()
}

// Puts the next line in `line`, without its newline, and says whether there was one. A line that is too long is read to its end,
// and a byte more kept than a line may have.
pub fn next_line(from: &mut impl BufRead, line: &mut Vec<u8>) -> io::Result<bool> {
    line.clear();
    let read = Read::take(&mut *from, LONGEST_LINE as u64 + 1).read_until(b'\n', line)?;
    if line.ends_with(b"\n") {
        let _ = line.pop();
    } else if is_too_long(line) {
        from.skip_until(b'\n')?;
    }
    Ok(read != 0)
}
