// Cutting a payload into fragments for C.
ghost use Rattle.std.specs.Prelude.{◌≡◌};
ghost use Rattle.codec.specs.Answers.{count_answer, written_answer};
ghost use Rattle.codec.specs.Cutting.{count_of, fragment_of, fragment_out};
ghost use Rattle.cwire.specs.Answer.{packed};

use crate::answers::answer;
use codec::cutting::{fragment, fragment_count};

// How many fragments with bodies of up to `size` bytes the payload is cut into.
pub fn xrce_wire_fragments(payload: &[u8], size: u64) -> u64
    ensures { result ≡ packed (count_answer (count_of payload.now size)) }
{
    answer(fragment_count(payload, size as usize).map(usize::from))
}

// The fragment of that number at the start of the output.
pub fn xrce_wire_fragment(payload: &[u8], size: u64, number: u16, out: &mut [u8]) -> u64
    ensures { (result ≡ packed (written_answer (fragment_of payload.now size number out.old)))
        × (out.new ≡ fragment_out payload.now size number out.old) }
{
    answer(fragment(payload, size as usize, number, out))
}
