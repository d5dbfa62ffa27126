// Cutting a payload into fragments: number, total, body.
ghost use Rattle.std.specs.Prelude.{◌≡◌, [], ◌*◌, ◌<◌, length, take, drop};
ghost use Rattle.codec.specs.Bytes.{put_of, put_bytes};
ghost use Rattle.codec.specs.Cutting.{fragment_bytes, fragment_header_of, count_of, fragment_of, fragment_out};

use crate::bytes::{copy_long, put_two, word_at};
use crate::refusals::Refusal;

#[derive(Clone, Copy, Debug, PartialEq, Eq)]
pub struct FragmentHeader {
    pub fragment_nr: u16,
    pub total_fragments: u16,
}

impl FragmentHeader {
    // The header at the start of a fragment.
    #[tactic(auto, unfolding(crate::specs::Cutting::fragment_header_of))]
    pub fn parse(buf: &[u8]) -> Result<FragmentHeader, Refusal>
        ensures { result ≡ fragment_header_of buf.now }
    {
        if buf.len() < 4 {
            return Err(Refusal::BufferTooShort);
        }
        Ok(FragmentHeader {
            fragment_nr: word_at(buf, 0),
            total_fragments: word_at(buf, 2),
        })
    }

    // The header's four bytes at the start of the output.
    pub fn write(self, out: &mut [u8]) -> Result<usize, Refusal>
        ensures { (result ≡ put_of out.old 0 (fragment_bytes self.fragment_nr self.total_fragments []))
            × (out.new ≡ put_bytes out.old 0 (fragment_bytes self.fragment_nr self.total_fragments [])) }
    {
        self.put_with(&[], out)
    }

    // The header and the body behind it, or 13 and no byte.
    fn put_with(self, body: &[u8], out: &mut [u8]) -> Result<usize, Refusal>
        ensures { (result ≡ put_of out.old 0 (fragment_bytes self.fragment_nr self.total_fragments body.now))
            × (out.new ≡ put_bytes out.old 0 (fragment_bytes self.fragment_nr self.total_fragments body.now)) }
    {
        if out.len() < 4 {
            return Err(Refusal::OutputTooShort);
        }
        if out.len() - 4 < body.len() {
            return Err(Refusal::OutputTooShort);
        }
        put_two(out, 0, self.fragment_nr, self.total_fragments);
        copy_long(out, 4, body);
        Ok(4 + body.len())
    }
}

// How many fragments `fragment` cuts the payload into: 7, 8, 9 in this order.
#[tactic(auto, using(crate::proofs::cutting::Laws::count_few, crate::proofs::cutting::Laws::count_many), unfolding(crate::specs::Cutting::count_of))]
pub fn fragment_count(payload: &[u8], max_payload: usize) -> Result<u16, Refusal>
    ensures { result ≡ count_of payload.now max_payload }
{
    if max_payload == 0 {
        return Err(Refusal::FragmentSizeZero);
    }
    if payload.len() == 0 {
        return Err(Refusal::EmptyPayload);
    }
    let last = (payload.len() - 1) / max_payload;
    if 65535 <= last {
        return Err(Refusal::TooManyFragments);
    }
    Ok((last + 1) as u16)
}

// The part of the payload that fragment `k` carries.
fn body_of(payload: &[u8], max_payload: usize, k: u16) -> &[u8]
    requires { k * max_payload < length payload.now }
    ensures { result.now ≡ take max_payload (drop (k * max_payload) payload.now) }
{
    let start = (k as usize) * max_payload;
    if payload.len() - start < max_payload {
        return &payload[start..];
    }
    let end = start + max_payload;
    &payload[start..end]
}

// Writes the k-th fragment at the start of the output: 7, 8, 9, then 10, then 13, and then no byte changes.
pub fn fragment(
    payload: &[u8],
    max_payload: usize,
    k: u16,
    out: &mut [u8],
) -> Result<usize, Refusal>
    ensures { (result ≡ fragment_of payload.now max_payload k out.old)
        × (out.new ≡ fragment_out payload.now max_payload k out.old) }
{
    let total = fragment_count(payload, max_payload)?;
    if total <= k {
        return Err(Refusal::FragmentNumber);
    }
    let header = FragmentHeader {
        fragment_nr: k,
        total_fragments: total,
    };
    header.put_with(body_of(payload, max_payload, k), out)
}
