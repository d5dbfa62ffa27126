// What a line of an answer is made of beside names and numbers. The program `replay` has the like: the two share no library of theirs (decision 81).
use codec::refusals::Refusal;
use std::io::Write;
use std::{fmt, io};

// Bytes, `-` where there are none.
#[derive(Clone, Copy, Debug)]
pub struct Hex<'a>(pub &'a [u8]);

impl fmt::Display for Hex<'_> {
    fn fmt<W: fmt::Write>(&self, f: &mut fmt::Formatter<W>) -> fmt::Result {
        if self.0.is_empty() {
            return f.write_str("-");
        }
        for b in self.0 {
            write!(f, "{b:02x}")?;
        }
        Ok(())
    }
}

// A client's key: its four bytes in the order of the wire.
#[derive(Clone, Copy, Debug)]
pub struct Key(pub u64);

impl fmt::Display for Key {
    fn fmt<W: fmt::Write>(&self, f: &mut fmt::Formatter<W>) -> fmt::Result {
        let [a, b, c, d, ..] = self.0.to_le_bytes();
        write!(f, "{a:02x}{b:02x}{c:02x}{d:02x}")
    }
}

pub fn yes(to: &mut impl Write, holds: bool) -> io::Result<()> {
    writeln!(to, "{}", if holds { "yes" } else { "no" })
}

// A refusal's number, and its byte with 2, 3 and 4.
pub fn refused(to: &mut impl Write, r: Refusal) -> io::Result<()> {
    let n = r.number();
    match r {
        Refusal::UnknownSubmessageId(b)
        | Refusal::UnknownObjectKind(b)
        | Refusal::UnknownStatusCode(b) => writeln!(to, "refused {n} {b}"),
        _ => writeln!(to, "refused {n}"),
    }
}
