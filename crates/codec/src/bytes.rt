// Numbers of two bytes, and bytes written into a lent output. A slice and a place, and no struct of both: the public writers take both, and their
// clauses speak of the whole output.
ghost use Rattle.std.specs.Prelude.{◌≡◌, ◌++◌, ◌+◌, ◌≤◌, leb, length};
ghost use Rattle.codec.specs.Bytes.{word_at, le16, put_at, put_of, put_bytes};

use crate::refusals::Refusal;

// The number at `at`, low byte first.
#[tactic(auto, unfolding(crate::specs::Bytes::word_at))]
pub(crate) fn word_at(s: &[u8], at: usize) -> u16
    requires { at + 2 ≤ length s.now }
    ensures { result ≡ word_at s.now at }
{
    u16::from_le_bytes([s[at], s[at + 1]])
}

// Writes the number at `at`, low byte first.
#[tactic(auto, using(crate::proofs::bytes::Laws::word_sets))]
pub(crate) fn put_word(out: &mut [u8], at: usize, n: u16)
    requires { at + 2 ≤ length out.old }
    ensures { out.new ≡ put_at out.old at (le16 n) }
{
    let [low, high] = n.to_le_bytes();
    out[at] = low;
    out[at + 1] = high;
}

// Writes two numbers, one behind the other.
#[tactic(auto, using(crate::proofs::bytes::Laws::put_behind), unfolding(crate::specs::Bytes::le16))]
pub(crate) fn put_two(out: &mut [u8], at: usize, a: u16, b: u16)
    requires { at + 4 ≤ length out.old }
    ensures { out.new ≡ put_at out.old at (le16 a ++ le16 b) }
{
    put_word(out, at, a);
    put_word(out, at + 2, b);
}

// Writes `src` from `at` on. A loop, which becomes wide moves: the library's copy is a call, and looks first whether the two overlap.
pub(crate) fn copy_in(out: &mut [u8], at: usize, src: &[u8])
    requires { at + length src.now ≤ length out.old }
    ensures { out.new ≡ put_at out.old at src.now }
{
    for i in 0..src.len() {
        out[at + i] = src[i];
    }
}

// The same by the library's copy, for what is long.
pub(crate) fn copy_long(out: &mut [u8], at: usize, src: &[u8])
    requires { at + length src.now ≤ length out.old }
    ensures { out.new ≡ put_at out.old at src.now }
{
    let end = at + src.len();
    out[at..end].copy_from_slice(src);
}

// Whether `n` bytes from `at` on lie within `room` bytes.
pub(crate) fn fits(room: usize, at: usize, n: usize) -> bool
    ensures { result ≡ leb (at + n) room }
{
    if room < at {
        return false;
    }
    n <= room - at
}

// Writes `src` from `at` on, or refuses as 13 and writes nothing.
pub fn put_bytes(out: &mut [u8], at: usize, src: &[u8]) -> Result<usize, Refusal>
    ensures { (result ≡ put_of out.old at src.now)
        × (out.new ≡ put_bytes out.old at src.now) }
{
    if fits(out.len(), at, src.len()) {
        copy_in(out, at, src);
        return Ok(src.len());
    }
    Err(Refusal::OutputTooShort)
}
