// An answer as one number: what a call gives, or why it is refused.
ghost use Rattle.std.specs.Prelude.{◌≡◌};
ghost use Rattle.codec.specs.Answers.{written_answer};
ghost use Rattle.cwire.specs.Answer.{packed};

use codec::refusals::Refusal;

// What is given is taken modulo this number, so that every answer fits 64 bits. What is counted lies in memory, and no machine has so
// many bytes.
const NUMBERS: u64 = 0x1_0000_0000_0000;

// What is given in the upper bits, or the refusal's number and the byte that 2, 3 and 4 give.
pub(crate) fn answer(w: Result<usize, Refusal>) -> u64
    ensures { result ≡ packed (written_answer w) }
{
    match w {
        Ok(n) => n as u64 % NUMBERS * 65536,
        Err(why) => u64::from(why.number()) + 256 * u64::from(why.byte()),
    }
}
