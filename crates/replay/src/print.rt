// What a line of the output is made of beside names and numbers. The program `layers` has the like: the two share no library of theirs (decision 81).
ghost use Rattle.std.specs.Prelude.{◌<◌};

use codec::refusals::Refusal;
use std::io::Write;
use std::{fmt, io};

// How many bytes are spelled before they are written: byte by byte a line of a thousand takes several times as long.
const PIECE: usize = 512;

fn glyph(d: u8) -> u8
    requires { d < 16 }
{
    if d < 10 { b'0' + d } else { b'a' + (d - 10) }
}

// Bytes, `-` where there are none.
#[derive(Clone, Copy, Debug)]
pub struct Hex<'a>(pub &'a [u8]);

impl fmt::Display for Hex<'_> {
    fn fmt<W: fmt::Write>(&self, f: &mut fmt::Formatter<W>) -> fmt::Result {
        if self.0.is_empty() {
            return f.write_str("-");
        }
        let mut digits = [0; 2 * PIECE];
        for piece in self.0.chunks(PIECE) {
            for (pair, b) in digits.chunks_exact_mut(2).zip(piece) {
                pair.copy_from_slice(&[glyph(*b / 16), glyph(*b % 16)]);
            }
            let spelled = &digits[..digits.len().min(2 * piece.len())];
            f.write_str(str::from_utf8(spelled).map_err(|_| fmt::Error)?)?;
        }
        Ok(())
    }
}

// A client's key: its four bytes in the order of the wire.
#[derive(Clone, Copy, Debug)]
pub struct Key(pub u64);

impl fmt::Display for Key {
    fn fmt<W: fmt::Write>(&self, f: &mut fmt::Formatter<W>) -> fmt::Result {
        let [a, b, c, d, ..] = self.0.to_le_bytes();
        write!(f, "{a:02x}{b:02x}{c:02x}{d:02x}")
    }
}

// A refusal's number, and its byte with 2, 3 and 4.
pub fn refused(to: &mut impl Write, r: Refusal) -> io::Result<()> {
    let n = r.number();
    match r {
        Refusal::UnknownSubmessageId(b)
        | Refusal::UnknownObjectKind(b)
        | Refusal::UnknownStatusCode(b) => writeln!(to, "refused {n} {b}"),
        _ => writeln!(to, "refused {n}"),
    }
}

pub fn bad_line(to: &mut impl Write) -> io::Result<()> {
    writeln!(to, "bad line")
}
