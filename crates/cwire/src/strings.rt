// Strings for C: where the bytes of one stand, or why there is none.
ghost use Rattle.std.specs.Prelude.{◌≡◌};
ghost use Rattle.codec.specs.Strings.{string_at};
ghost use Rattle.cwire.specs.Answer.{packed, string_number};

use crate::answers::answer;
use codec::strings::decode_string;

// The string at `at`: how many bytes it has; they begin two bytes behind. 1, then 18 where they are no text.
pub fn xrce_wire_string(bytes: &[u8], at: usize) -> u64
    ensures { result ≡ packed (string_number (string_at bytes.now at)) }
{
    answer(decode_string(bytes, at).map(|text| text.len))
}
