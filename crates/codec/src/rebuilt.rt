// The check of rebuilt bytes (document 02, W6): submessages to the end under no header, "1 to 5, then 17".
ghost use Rattle.std.specs.Prelude.{◌≡◌, ◌||◌};
ghost use Rattle.codec.specs.Rebuilt.{barred_id, rebuilt_at, rebuilt_of};

use crate::failures::end_at;
use crate::refusals::Refusal;

// Whether one so far, or this id, is a CREATE_CLIENT or a FRAGMENT.
fn or_barred(before: bool, id: u8) -> bool
    ensures { result ≡ (before || barred_id id) }
{
    before || matches!(id, 0x00 | 0x0F)
}

// The submessages from `from` to the end, counted; the first failure refuses the whole, and 17 is for bytes that read to the end.
pub fn count_rebuilt(s: &[u8], from: usize) -> Result<usize, Refusal>
    ensures { result ≡ rebuilt_at s.now from }
{
    // A `while`, since the bytes say where each turn ends, and the first failure ends all.
    let mut at = from;
    let mut n: usize = 0;
    let mut barred = false;
    while at < s.len() {
        barred = or_barred(barred, s[at]);
        at = end_at(s, at)?;
        n += 1;
    }
    if barred {
        return Err(Refusal::NotInFragments);
    }
    Ok(n)
}

// The check of the whole: no bytes at all hold no submessage.
#[tactic(auto, using(crate::proofs::rebuilt::Laws::whole_none, crate::proofs::rebuilt::Laws::whole_some))]
pub fn check_rebuilt(s: &[u8]) -> Result<usize, Refusal>
    ensures { result ≡ rebuilt_of s.now }
{
    if s.len() == 0 {
        return Err(Refusal::BufferTooShort);
    }
    count_rebuilt(s, 0)
}
