// The bytes of a reply in the lent output, written only where they fit; the count goes on as if they did, so that a run on
// no output tells what it would need (13).
ghost use Rattle.std.specs.Prelude.{◌≡◌, ◌≤◌, length};
ghost use Rattle.codec.specs.Bytes.{put_bytes};
ghost use Rattle.moves.specs.Replies.{status_bytes, acknack_bytes, data_bytes};
ghost use Rattle.agent.specs.Run.{counted};

use codec::bytes::put_bytes;
use codec::header::MessageHeader;
use codec::submessages::{AcknackPayload, DataPayload, ObjectNumber, StatusCode, Submessage};
use codec::writing::write_message;

// A STATUS, whole: a reply of fixed layout has its own writer, which is a few stores.
#[tactic(auto, using(crate::proofs::MoveBytes::status_line))]
pub(crate) fn put_status(
    out: &mut [u8],
    at: usize,
    session_id: u8,
    stream_id: u8,
    number: ObjectNumber,
    code: StatusCode,
)
    ensures { out.new ≡ put_bytes out.old at (status_bytes session_id stream_id number.0 code) }
{
    let [lo, hi] = number.0.to_le_bytes();
    let line = [
        session_id,
        stream_id,
        0,
        0,
        5,
        0,
        3,
        0,
        lo,
        hi,
        code.as_u8(),
    ];
    let _ = put_bytes(out, at, &line);
}

// An ACKNACK, whole.
#[tactic(auto, using(crate::proofs::MoveBytes::acknack_line))]
pub(crate) fn put_acknack(
    out: &mut [u8],
    at: usize,
    session_id: u8,
    stream_id: u8,
    p: AcknackPayload,
)
    ensures { out.new ≡ put_bytes out.old at (acknack_bytes session_id stream_id p.first_unacked_seq p.nack_bitmap) }
{
    let [a, b] = p.first_unacked_seq.to_le_bytes();
    let [c, d] = p.nack_bitmap.to_le_bytes();
    let line = [session_id, stream_id, 0, 0, 14, 0, 4, 0, a, b, c, d];
    let _ = put_bytes(out, at, &line);
}

// Bytes are counted on until the output has no room for them, so that no count wraps.
pub(crate) fn count(room: usize, at: usize, n: usize) -> usize
    requires { (room ≤ 9223372036854775807) × (n ≤ 65543) }
    ensures { result ≡ counted room at n }
{
    if room < at { at } else { at + n }
}

// Writes a sample as DATA at the start of the output.
#[tactic(auto, using(crate::proofs::MoveBytes::write_put, crate::proofs::MoveBytes::data_short, crate::proofs::MoveBytes::data_long))]
pub(crate) fn reply_data(
    out: &mut [u8],
    sample: &[u8],
    session_id: u8,
    stream_id: u8,
    sequence_nr: u16,
    number: ObjectNumber,
) -> usize
    requires { length sample.now ≤ 65533 }
    ensures { (result ≡ length (data_bytes session_id stream_id sequence_nr number.0 sample.now))
        × (out.new ≡ put_bytes out.old 0 (data_bytes session_id stream_id sequence_nr number.0 sample.now)) }
{
    let header = MessageHeader {
        session_id,
        stream_id,
        sequence_nr,
    };
    let m = Submessage::Data(DataPayload { reader_id: number });
    let _ = write_message(out, 0, header, m, sample);
    10 + sample.len()
}
