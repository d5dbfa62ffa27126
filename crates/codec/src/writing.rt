// Writing: one submessage at a place of a lent output, and a message of a header and one submessage.
// Sizes are known before the first byte is written, so a refusal (12, then 13) leaves the output as it was.
ghost use Rattle.std.specs.Prelude.{◌≡◌, ◌+◌, ◌≤◌, ◌<◌, ◌^◌, length, [], ◌∷◌, ◌++◌};
ghost use Rattle.codec.specs.Bytes.{le16, le32, put_at, write_of, write_bytes};
ghost use Rattle.codec.specs.Layouts.{least_of};
ghost use Rattle.codec.specs.Submessages.{id_of};
ghost use Rattle.codec.specs.Writing.{fixed_bytes, body_len, payload_bytes, sub_bytes, message_bytes};

use crate::bytes::{copy_in, fits, put_two, put_word};
use crate::header::{MESSAGE_HEADER_SIZE, MessageHeader, SUBMESSAGE_HEADER_SIZE, put_head};
use crate::layouts::least_len;
use crate::refusals::Refusal;
use crate::submessages::{ObjectNumber, Submessage};

// A length on the wire has two bytes.
pub const MAX_PAYLOAD: usize = 65535;

// How much of a body of `n` bytes the submessage carries: all of it, or nothing where its layout has no variable part.
fn body_len(m: Submessage, n: usize) -> usize
    ensures { result ≡ body_len m n }
{
    match m {
        Submessage::Create(_)
        | Submessage::WriteData(_)
        | Submessage::Data(_)
        | Submessage::Fragment(_) => n,
        _ => 0,
    }
}

// The fixed bytes of a layout are as many as its least length.
fn payload_len(m: Submessage, n: usize) -> usize
    requires { n < 2 ^ 63 }
    ensures { result ≡ least_of (id_of m) + body_len m n }
{
    least_len(m.id()) as usize + body_len(m, n)
}

// CREATE_CLIENT's key and properties.
#[tactic(auto, using(crate::proofs::bytes::Laws::put_behind, crate::proofs::bytes::Laws::put_one, crate::proofs::bytes::Laws::quad_bytes), unfolding(crate::specs::Bytes::le16, crate::specs::Bytes::le32))]
fn put_client(out: &mut [u8], at: usize, key: u32, properties: u8)
    requires { at + 5 ≤ length out.old }
    ensures { out.new ≡ put_at out.old at (le32 key ++ (properties ∷ [])) }
{
    copy_in(out, at, &key.to_le_bytes());
    out[at + 4] = properties;
}

#[tactic(auto, using(crate::proofs::bytes::Laws::put_behind, crate::proofs::bytes::Laws::put_one), unfolding(crate::specs::Bytes::le16))]
fn put_marked(out: &mut [u8], at: usize, n: ObjectNumber, mark: u8)
    requires { at + 3 ≤ length out.old }
    ensures { out.new ≡ put_at out.old at (le16 n.0 ++ (mark ∷ [])) }
{
    put_word(out, at, n.0);
    out[at + 2] = mark;
}

// The fixed bytes of a submessage, at `at`.
#[tactic(auto, using(crate::proofs::bytes::Laws::put_behind), unfolding(crate::specs::Writing::fixed_bytes, crate::specs::Bytes::le16, crate::specs::Bytes::le32))]
fn put_fixed(out: &mut [u8], at: usize, m: Submessage)
    requires { at + length (fixed_bytes m) ≤ length out.old }
    ensures { out.new ≡ put_at out.old at (fixed_bytes m) }
{
    match m {
        Submessage::CreateClient(p) => put_client(out, at, p.client_key, p.properties),
        Submessage::Create(p) => {
            put_marked(out, at, p.object_id, p.kind.as_u8());
            put_word(out, at + 3, p.parent_id);
        }
        Submessage::Delete(p) => put_word(out, at, p.object_id.0),
        Submessage::Status(p) => put_marked(out, at, p.related_object_id, p.status.as_u8()),
        Submessage::WriteData(p) => put_word(out, at, p.writer_id.0),
        Submessage::ReadData(p) => put_two(out, at, p.reader_id.0, p.max_samples),
        Submessage::Data(p) => put_word(out, at, p.reader_id.0),
        Submessage::Heartbeat(p) => put_two(out, at, p.first_unacked_seq, p.last_seq),
        Submessage::Acknack(p) => put_two(out, at, p.first_unacked_seq, p.nack_bitmap),
        Submessage::Fragment(p) => put_two(out, at, p.fragment_nr, p.total_fragments),
    }
}

// The payload: the fixed bytes, and as much of the body as the layout carries.
fn put_payload(out: &mut [u8], at: usize, m: Submessage, body: &[u8])
    requires { at + length (payload_bytes m body.now) ≤ length out.old }
    ensures { out.new ≡ put_at out.old at (payload_bytes m body.now) }
{
    let fixed = least_len(m.id()) as usize;
    let n = body_len(m, body.len());
    put_fixed(out, at, m);
    copy_in(out, at + fixed, &body[..n]);
}

// A submessage that fits, with a payload of `len` bytes.
#[tactic(auto, using(crate::proofs::writing::Laws::sub_put))]
fn put_submessage(out: &mut [u8], at: usize, m: Submessage, body: &[u8], len: u16)
    requires { (len ≡ length (payload_bytes m body.now)) × (at + 4 + len ≤ length out.old) }
    ensures { out.new ≡ put_at out.old at (sub_bytes m body.now) }
{
    put_head(out, at, m.id(), 0, len);
    put_payload(out, at + SUBMESSAGE_HEADER_SIZE, m, body);
}

// Writes the submessage from `at` on.
pub fn write_submessage(
    out: &mut [u8],
    at: usize,
    m: Submessage,
    body: &[u8],
) -> Result<usize, Refusal>
    ensures { (result ≡ write_of (length (payload_bytes m body.now)) out.old at (sub_bytes m body.now))
        × (out.new ≡ write_bytes (length (payload_bytes m body.now)) out.old at (sub_bytes m body.now)) }
{
    let len = payload_len(m, body.len());
    if MAX_PAYLOAD < len {
        return Err(Refusal::TooLong);
    }
    let size = SUBMESSAGE_HEADER_SIZE + len;
    if fits(out.len(), at, size) {
        put_submessage(out, at, m, body, len as u16);
        return Ok(size);
    }
    Err(Refusal::OutputTooShort)
}

// Writes a message of the header and the submessage from `at` on. Not over `write_submessage`: all sizes are known before the first byte, and an edit
// (room_for_a_header_taken_for_enough) changes this one.
pub fn write_message(
    out: &mut [u8],
    at: usize,
    header: MessageHeader,
    m: Submessage,
    body: &[u8],
) -> Result<usize, Refusal>
    ensures { (result ≡ write_of (length (payload_bytes m body.now)) out.old at (message_bytes header m body.now))
        × (out.new ≡ write_bytes (length (payload_bytes m body.now)) out.old at (message_bytes header m body.now)) }
{
    let len = payload_len(m, body.len());
    if MAX_PAYLOAD < len {
        return Err(Refusal::TooLong);
    }
    let size = MESSAGE_HEADER_SIZE + SUBMESSAGE_HEADER_SIZE + len;
    if fits(out.len(), at, size) {
        put_head(
            out,
            at,
            header.session_id,
            header.stream_id,
            header.sequence_nr,
        );
        put_submessage(out, at + MESSAGE_HEADER_SIZE, m, body, len as u16);
        return Ok(size);
    }
    Err(Refusal::OutputTooShort)
}
