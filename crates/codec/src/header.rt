// The four bytes that begin a message, and the four that begin a submessage.
ghost use Rattle.std.specs.Prelude.{◌≡◌, ◌+◌, ◌≤◌, ◌∷◌, length};
ghost use Rattle.codec.specs.Bytes.{le16, put_at, put_of, put_bytes};
ghost use Rattle.codec.specs.Header.{header_read, header_bytes, sub_header_read};

use crate::bytes::{fits, put_word, word_at};
use crate::refusals::Refusal;

pub const MESSAGE_HEADER_SIZE: usize = 4;

pub const SUBMESSAGE_HEADER_SIZE: usize = 4;

#[derive(Clone, Copy, Debug, PartialEq, Eq)]
pub struct MessageHeader {
    pub session_id: u8,
    pub stream_id: u8,
    pub sequence_nr: u16,
}

impl MessageHeader {
    // The header of a message, or 1 where its four bytes are not there.
    #[tactic(auto, using(crate::proofs::header::Laws::header_short, crate::proofs::header::Laws::header_there), unfolding(crate::specs::Header::header_of))]
    pub fn parse(s: &[u8]) -> Result<MessageHeader, Refusal>
        ensures { result ≡ header_read s.now }
    {
        if s.len() < MESSAGE_HEADER_SIZE {
            return Err(Refusal::BufferTooShort);
        }
        Ok(MessageHeader {
            session_id: s[0],
            stream_id: s[1],
            sequence_nr: word_at(s, 2),
        })
    }

    // Writes the header from `at` on: also a whole message of no submessages.
    pub fn write(self, out: &mut [u8], at: usize) -> Result<usize, Refusal>
        ensures { (result ≡ put_of out.old at (header_bytes self))
            × (out.new ≡ put_bytes out.old at (header_bytes self)) }
    {
        if fits(out.len(), at, MESSAGE_HEADER_SIZE) {
            put_head(out, at, self.session_id, self.stream_id, self.sequence_nr);
            return Ok(MESSAGE_HEADER_SIZE);
        }
        Err(Refusal::OutputTooShort)
    }
}

// Two bytes and a number behind them: the shape of both headers.
pub(crate) fn put_head(out: &mut [u8], at: usize, a: u8, b: u8, n: u16)
    requires { at + 4 ≤ length out.old }
    ensures { out.new ≡ put_at out.old at (a ∷ b ∷ le16 n) }
{
    out[at] = a;
    out[at + 1] = b;
    put_word(out, at + 2, n);
}

#[derive(Clone, Copy, Debug, PartialEq, Eq)]
pub struct SubmessageHeader {
    pub submessage_id: u8,
    pub flags: u8,
    pub length: u16,
}

impl SubmessageHeader {
    // The header of the submessage at `at`, or 1 where its four bytes are not there.
    #[tactic(auto, using(crate::proofs::header::Laws::sub_header_short, crate::proofs::header::Laws::sub_header_there), unfolding(crate::specs::Header::sub_header_of))]
    pub fn parse(s: &[u8], at: usize) -> Result<SubmessageHeader, Refusal>
        ensures { result ≡ sub_header_read s.now at }
    {
        if s.len() < at {
            return Err(Refusal::BufferTooShort);
        }
        if s.len() - at < SUBMESSAGE_HEADER_SIZE {
            return Err(Refusal::BufferTooShort);
        }
        Ok(SubmessageHeader {
            submessage_id: s[at],
            flags: s[at + 1],
            length: word_at(s, at + 2),
        })
    }
}
