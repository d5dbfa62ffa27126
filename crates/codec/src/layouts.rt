// The ten payload layouts: what the bytes at a place say, once the id and the length are known to allow it.
ghost use Rattle.std.specs.Prelude.{◌≡◌, ◌+◌, ◌≤◌, ◌<◌, ◌^◌, length};
ghost use Rattle.codec.specs.Bytes.{word_at, quad_at};
ghost use Rattle.codec.specs.Layouts.{least_of, plain_at, bodied_at, create_at, status_at, layout_at};
ghost use Rattle.codec.specs.Layouts.{create_client_at, delete_at, write_data_at, read_data_at, data_at, heartbeat_at, acknack_at, fragment_at};

use crate::bytes::word_at;
use crate::refusals::Refusal;
use crate::submessages::{
    AcknackPayload, CreateClientPayload, CreatePayload, DataPayload, DeletePayload,
    FragmentPayload, HeartbeatPayload, ObjectKind, ObjectNumber, ReadDataPayload, StatusCode,
    StatusPayload, Submessage, WriteDataPayload,
};

// A part of a datagram: `len` bytes from `start` on.
#[derive(Clone, Copy, Debug, PartialEq, Eq)]
pub struct Span {
    pub start: usize,
    pub len: usize,
}

// The place in a datagram at which the next submessage begins.
#[derive(Clone, Copy, Debug, PartialEq, Eq)]
pub struct Cursor {
    pub at: usize,
}

// Stands in LEAST for an id that is not listed. A mark, and no Option: `least_len` is public with this clause, and an edit (one_least_length)
// changes the table.
pub const UNLISTED: u8 = 255;

// The least payload lengths by submessage id.
const LEAST: [u8; 16] = [5, 5, 2, 255, 255, 3, 255, 2, 4, 2, 255, 255, 255, 4, 4, 4];

// The least payload length of an id, or the mark UNLISTED.
#[tactic(auto, unfolding(crate::specs::Layouts::least_of))]
pub fn least_len(id: u8) -> u8
    ensures { result ≡ least_of id }
{
    if id < 16 {
        LEAST[id as usize]
    } else {
        UNLISTED
    }
}

// One function a layout, and one each with and without a variable part: the payloads' fields have names of their own, and specs/Layouts.antt has each.
// A layout with no variable part: bytes beyond it are ignored.
fn plain_at(m: Submessage, p: usize, len: usize) -> Result<(Submessage, Span, Cursor), Refusal>
    requires { p + len < 2 ^ 64 }
    ensures { result ≡ plain_at m p len }
{
    Ok((
        m,
        Span {
            start: p + len,
            len: 0,
        },
        Cursor { at: p + len },
    ))
}

// A layout whose variable part is all that follows its `fixed` bytes.
fn bodied_at(
    m: Submessage,
    fixed: usize,
    p: usize,
    len: usize,
) -> Result<(Submessage, Span, Cursor), Refusal>
    requires { (p + len < 2 ^ 64) × (fixed ≤ len) }
    ensures { result ≡ bodied_at m fixed p len }
{
    Ok((
        m,
        Span {
            start: p + fixed,
            len: len - fixed,
        },
        Cursor { at: p + len },
    ))
}

#[tactic(auto, unfolding(crate::specs::Bytes::word_at, crate::specs::Bytes::quad_at))]
fn create_client_at(s: &[u8], p: usize) -> Submessage
    requires { p + 5 ≤ length s.now }
    ensures { result ≡ create_client_at s.now p }
{
    Submessage::CreateClient(CreateClientPayload {
        client_key: u32::from_le_bytes([s[p], s[p + 1], s[p + 2], s[p + 3]]),
        properties: s[p + 4],
    })
}

// CREATE: 3 where the kind's byte is none of the six.
#[tactic(auto, unfolding(crate::specs::Layouts::create_at))]
fn create_at(s: &[u8], p: usize, len: usize) -> Result<(Submessage, Span, Cursor), Refusal>
    requires { (p + len ≤ length s.now) × (5 ≤ len) }
    ensures { result ≡ create_at s.now p len }
{
    let kind = ObjectKind::try_from(s[p + 2])?;
    let m = Submessage::Create(CreatePayload {
        object_id: ObjectNumber(word_at(s, p)),
        kind,
        parent_id: word_at(s, p + 3),
    });
    bodied_at(m, 5, p, len)
}

fn delete_at(s: &[u8], p: usize) -> Submessage
    requires { p + 2 ≤ length s.now }
    ensures { result ≡ delete_at s.now p }
{
    Submessage::Delete(DeletePayload {
        object_id: ObjectNumber(word_at(s, p)),
    })
}

// STATUS: 4 where the code's byte is none of the five.
#[tactic(auto, unfolding(crate::specs::Layouts::status_at))]
fn status_at(s: &[u8], p: usize, len: usize) -> Result<(Submessage, Span, Cursor), Refusal>
    requires { (p + len ≤ length s.now) × (3 ≤ len) }
    ensures { result ≡ status_at s.now p len }
{
    let status = StatusCode::try_from(s[p + 2])?;
    let m = Submessage::Status(StatusPayload {
        related_object_id: ObjectNumber(word_at(s, p)),
        status,
    });
    plain_at(m, p, len)
}

fn write_data_at(s: &[u8], p: usize) -> Submessage
    requires { p + 2 ≤ length s.now }
    ensures { result ≡ write_data_at s.now p }
{
    Submessage::WriteData(WriteDataPayload {
        writer_id: ObjectNumber(word_at(s, p)),
    })
}

fn read_data_at(s: &[u8], p: usize) -> Submessage
    requires { p + 4 ≤ length s.now }
    ensures { result ≡ read_data_at s.now p }
{
    Submessage::ReadData(ReadDataPayload {
        reader_id: ObjectNumber(word_at(s, p)),
        max_samples: word_at(s, p + 2),
    })
}

fn data_at(s: &[u8], p: usize) -> Submessage
    requires { p + 2 ≤ length s.now }
    ensures { result ≡ data_at s.now p }
{
    Submessage::Data(DataPayload {
        reader_id: ObjectNumber(word_at(s, p)),
    })
}

fn heartbeat_at(s: &[u8], p: usize) -> Submessage
    requires { p + 4 ≤ length s.now }
    ensures { result ≡ heartbeat_at s.now p }
{
    Submessage::Heartbeat(HeartbeatPayload {
        first_unacked_seq: word_at(s, p),
        last_seq: word_at(s, p + 2),
    })
}

fn acknack_at(s: &[u8], p: usize) -> Submessage
    requires { p + 4 ≤ length s.now }
    ensures { result ≡ acknack_at s.now p }
{
    Submessage::Acknack(AcknackPayload {
        first_unacked_seq: word_at(s, p),
        nack_bitmap: word_at(s, p + 2),
    })
}

fn fragment_at(s: &[u8], p: usize) -> Submessage
    requires { p + 4 ≤ length s.now }
    ensures { result ≡ fragment_at s.now p }
{
    Submessage::Fragment(FragmentPayload {
        fragment_nr: word_at(s, p),
        total_fragments: word_at(s, p + 2),
    })
}

// The payload of `len` bytes at `p`: the id alone decides which layout is read.
#[tactic(auto, unfolding(crate::specs::Layouts::layout_at, crate::specs::Layouts::least_of))]
pub(crate) fn layout_at(
    s: &[u8],
    id: u8,
    p: usize,
    len: usize,
) -> Result<(Submessage, Span, Cursor), Refusal>
    requires { (p + len ≤ length s.now) × (least_of id ≤ len) }
    ensures { result ≡ layout_at s.now id p len }
{
    match id {
        0x00 => plain_at(create_client_at(s, p), p, len),
        0x01 => create_at(s, p, len),
        0x02 => plain_at(delete_at(s, p), p, len),
        0x03..=0x04 => Err(Refusal::UnknownSubmessageId(id)),
        0x05 => status_at(s, p, len),
        0x06 => Err(Refusal::UnknownSubmessageId(id)),
        0x07 => bodied_at(write_data_at(s, p), 2, p, len),
        0x08 => plain_at(read_data_at(s, p), p, len),
        0x09 => bodied_at(data_at(s, p), 2, p, len),
        0x0A..=0x0C => Err(Refusal::UnknownSubmessageId(id)),
        0x0D => plain_at(heartbeat_at(s, p), p, len),
        0x0E => plain_at(acknack_at(s, p), p, len),
        0x0F => bodied_at(fragment_at(s, p), 4, p, len),
        0x10..=0xFF => Err(Refusal::UnknownSubmessageId(id)),
    }
}
