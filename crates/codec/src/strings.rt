// Strings on the wire: a length of two bytes, then the bytes.
ghost use Rattle.std.specs.Prelude.{◌≡◌, length};
ghost use Rattle.codec.specs.Bytes.{write_of, write_bytes};
ghost use Rattle.codec.specs.Strings.{string_bytes, string_at};

use crate::bytes::{copy_in, fits, put_word, word_at};
use crate::layouts::Span;
use crate::reading::part;
use crate::refusals::Refusal;
use crate::text::is_text;
use crate::writing::MAX_PAYLOAD;

// Writes the string from `at` on: 12, then 13.
pub fn encode_string(out: &mut [u8], at: usize, text: &[u8]) -> Result<usize, Refusal>
    ensures { (result ≡ write_of (length text.now) out.old at (string_bytes text.now))
        × (out.new ≡ write_bytes (length text.now) out.old at (string_bytes text.now)) }
{
    let len = text.len();
    if MAX_PAYLOAD < len {
        return Err(Refusal::TooLong);
    }
    let size = 2 + len;
    if fits(out.len(), at, size) {
        put_word(out, at, len as u16);
        copy_in(out, at + 2, text);
        return Ok(size);
    }
    Err(Refusal::OutputTooShort)
}

// The string at `at`: 1 where its length or its bytes are cut short, then 18 where they are no text (document 02, W7).
#[tactic(auto, using(crate::proofs::strings::Laws::string_laws))]
pub fn decode_string(s: &[u8], at: usize) -> Result<Span, Refusal>
    ensures { result ≡ string_at s.now at }
{
    if fits(s.len(), at, 2) {
        let start = at + 2;
        let len = word_at(s, at) as usize;
        if len <= s.len() - start {
            let span = Span { start, len };
            if is_text(part(s, span)) {
                return Ok(span);
            }
            return Err(Refusal::IllFormed);
        }
    }
    Err(Refusal::BufferTooShort)
}
