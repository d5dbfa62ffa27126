// What a word of a line says: numbers are decimal, bytes are lower-case hexadecimal or `-`.
ghost use Rattle.std.specs.Prelude.{◌<◌};

use crate::event::Fault;
use std::alloc::AllocError;

// The number so far with a decimal digit more.
fn with_digit(n: u64, b: u8) -> Option<u64> {
    match b {
        b'0'..=b'9' => n.checked_mul(10)?.checked_add(u64::from(b - b'0')),
        _ => None,
    }
}

fn decimal(word: &[u8]) -> Option<u64> {
    if word.is_empty() {
        return None;
    }
    word.iter().try_fold(0, |n, b| with_digit(n, *b))
}

// The number that a word is, where it fits its type. A sign is not in the format, and `parse` takes one.
pub fn number<N: TryFrom<u64>>(word: &[u8]) -> Result<N, Fault>
where
    N::Error: Drop,
{
    let n = decimal(word).ok_or(Fault::NotInFormat)?;
    N::try_from(n).map_err(|_| Fault::NotInFormat)
}

// What stands between two words.
pub fn is_space(b: &u8) -> bool {
    *b == b' '
}

// What stands before the first such byte of a word, and what stands behind it.
pub fn cut(word: &[u8], at: u8) -> Result<(&[u8], &[u8]), Fault> {
    match word.iter().position(|b| *b == at) {
        Some(i) => Ok((&word[..i], &word[i + 1..])),
        None => Err(Fault::NotInFormat),
    }
}

// The digits of the bytes that a word is, two a byte. By hand, and not the library's `hex`: capital digits are not in the format.
pub fn digits(word: &[u8]) -> Result<&[u8], Fault> {
    if word == b"-".as_slice() {
        return Ok(b"");
    }
    let is_digit = |b: &u8| matches!(*b, b'0'..=b'9' | b'a'..=b'f');
    if word.is_empty() || word.len() % 2 != 0 || !word.iter().all(is_digit) {
        return Err(Fault::NotInFormat);
    }
    Ok(word)
}

fn digit(b: u8) -> u8
    ensures { result < 16 }
{
    match b {
        b'0'..=b'9' => b - b'0',
        b'a'..=b'f' => b - b'a' + 10,
        _ => 0,
    }
}

// Puts the bytes of these digits in `bytes`.
pub fn decode(digits: &[u8], bytes: &mut Vec<u8>) -> Result<(), AllocError> {
    bytes.clear();
    for pair in digits.chunks_exact(2) {
        if let [high, low] = pair {
            bytes.push(16 * digit(*high) + digit(*low))?;
        }
    }
    Ok(())
}
