// The words of a line: separated by one space; numbers are decimal, bytes are hexadecimal.
ghost use Rattle.std.specs.Prelude.{◌<◌};

use std::alloc::AllocError;

// The word with that index, an empty one past the last. A newline ends a word as a space does.
pub fn word(line: &[u8], index: usize) -> &[u8] {
    line.split(|b| *b <= b' ').nth(index).unwrap_or(b"")
}

// The value of a decimal or hexadecimal digit.
fn digit(b: u8) -> u8
    ensures { result < 16 }
{
    match b {
        b'0'..=b'9' => b - b'0',
        b'a'..=b'f' => b - b'a' + 10,
        _ => 0,
    }
}

// The number so far with one digit more; past 2^64 it begins anew.
fn with_digit(n: u64, b: u8) -> u64 {
    match n.checked_mul(10) {
        Some(tens) => tens.wrapping_add(u64::from(digit(b))),
        None => 0,
    }
}

// The number that a word is. Any word is taken as digits, since the format leaves others open, where `parse` would refuse them.
pub fn number(line: &[u8], index: usize) -> u64 {
    word(line, index).iter().fold(0, |n, b| with_digit(n, *b))
}

// Its low 8 bits. Two functions, and no generic one: no conversion of the library takes low bits.
pub fn number_8(line: &[u8], index: usize) -> u8 {
    (number(line, index) % 256) as u8
}

// Its low 16 bits.
pub fn number_16(line: &[u8], index: usize) -> u16 {
    (number(line, index) % 65536) as u16
}

// By hand, and not the library's `hex`: the format takes any word, and other bytes count as 0.
fn two_digits(high: u8, low: u8) -> u8 {
    16 * digit(high) + digit(low)
}

// Puts the bytes that a word gives in `given`.
pub fn bytes<'a>(
    line: &[u8],
    index: usize,
    given: &'a mut Vec<u8>,
) -> Result<&'a [u8], AllocError> {
    given.clear();
    for pair in word(line, index).chunks_exact(2) {
        if let [high, low] = pair {
            given.push(two_digits(*high, *low))?;
        }
    }
    Ok(given.as_slice())
}
