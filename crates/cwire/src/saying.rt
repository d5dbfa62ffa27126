// The submessage that a row says: each number tested against its field's range before it is taken.
ghost use Rattle.std.specs.Prelude.{◌≡◌};
ghost use Rattle.cwire.specs.Saying.{client_said, create_said, status_said, delete_said, write_said, read_said, data_said, heartbeat_said, acknack_said, fragment_said, said_by, row_says};

use crate::limits::field;
use codec::refusals::Refusal;
use codec::submessages::{
    AcknackPayload, CreateClientPayload, CreatePayload, DataPayload, DeletePayload,
    FragmentPayload, HeartbeatPayload, ObjectKind, ObjectNumber, ReadDataPayload, StatusCode,
    StatusPayload, Submessage, WriteDataPayload,
};

#[tactic(auto, unfolding(crate::specs::Saying::client_said))]
fn client(key: u64, properties: u64) -> Result<Submessage, Refusal>
    ensures { result ≡ client_said key properties }
{
    Ok(Submessage::CreateClient(CreateClientPayload {
        client_key: field(key)?,
        properties: field(properties)?,
    }))
}

#[tactic(auto, unfolding(crate::specs::Saying::create_said))]
fn create(object: u64, mark: u64, parent: u64) -> Result<Submessage, Refusal>
    ensures { result ≡ create_said object mark parent }
{
    let object_id = ObjectNumber(field(object)?);
    let mark: u8 = field(mark)?;
    let parent_id = field(parent)?;
    Ok(Submessage::Create(CreatePayload {
        object_id,
        kind: ObjectKind::try_from(mark)?,
        parent_id,
    }))
}

#[tactic(auto, unfolding(crate::specs::Saying::status_said))]
fn status(object: u64, mark: u64) -> Result<Submessage, Refusal>
    ensures { result ≡ status_said object mark }
{
    let related_object_id = ObjectNumber(field(object)?);
    let mark: u8 = field(mark)?;
    Ok(Submessage::Status(StatusPayload {
        related_object_id,
        status: StatusCode::try_from(mark)?,
    }))
}

#[tactic(auto, unfolding(crate::specs::Saying::delete_said))]
fn delete(object: u64) -> Result<Submessage, Refusal>
    ensures { result ≡ delete_said object }
{
    Ok(Submessage::Delete(DeletePayload {
        object_id: ObjectNumber(field(object)?),
    }))
}

#[tactic(auto, unfolding(crate::specs::Saying::write_said))]
fn write_data(writer: u64) -> Result<Submessage, Refusal>
    ensures { result ≡ write_said writer }
{
    Ok(Submessage::WriteData(WriteDataPayload {
        writer_id: ObjectNumber(field(writer)?),
    }))
}

#[tactic(auto, unfolding(crate::specs::Saying::read_said))]
fn read_data(reader: u64, samples: u64) -> Result<Submessage, Refusal>
    ensures { result ≡ read_said reader samples }
{
    Ok(Submessage::ReadData(ReadDataPayload {
        reader_id: ObjectNumber(field(reader)?),
        max_samples: field(samples)?,
    }))
}

#[tactic(auto, unfolding(crate::specs::Saying::data_said))]
fn data_of(reader: u64) -> Result<Submessage, Refusal>
    ensures { result ≡ data_said reader }
{
    Ok(Submessage::Data(DataPayload {
        reader_id: ObjectNumber(field(reader)?),
    }))
}

#[tactic(auto, unfolding(crate::specs::Saying::heartbeat_said))]
fn heartbeat(first: u64, last: u64) -> Result<Submessage, Refusal>
    ensures { result ≡ heartbeat_said first last }
{
    Ok(Submessage::Heartbeat(HeartbeatPayload {
        first_unacked_seq: field(first)?,
        last_seq: field(last)?,
    }))
}

#[tactic(auto, unfolding(crate::specs::Saying::acknack_said))]
fn acknack(first: u64, bitmap: u64) -> Result<Submessage, Refusal>
    ensures { result ≡ acknack_said first bitmap }
{
    Ok(Submessage::Acknack(AcknackPayload {
        first_unacked_seq: field(first)?,
        nack_bitmap: field(bitmap)?,
    }))
}

#[tactic(auto, unfolding(crate::specs::Saying::fragment_said))]
fn fragment(number: u64, total: u64) -> Result<Submessage, Refusal>
    ensures { result ≡ fragment_said number total }
{
    Ok(Submessage::Fragment(FragmentPayload {
        fragment_nr: field(number)?,
        total_fragments: field(total)?,
    }))
}

// The id alone decides which fields a row has.
#[tactic(auto, unfolding(crate::specs::Saying::said_by))]
fn said_by(id: u8, a: u64, b: u64, c: u64) -> Result<Submessage, Refusal>
    ensures { result ≡ said_by id a b c }
{
    match id {
        0x00 => client(a, b),
        0x01 => create(a, b, c),
        0x02 => delete(a),
        0x05 => status(a, b),
        0x07 => write_data(a),
        0x08 => read_data(a, b),
        0x09 => data_of(a),
        0x0D => heartbeat(b, c),
        0x0E => acknack(b, c),
        0x0F => fragment(b, c),
        _ => Err(Refusal::UnknownSubmessageId(id)),
    }
}

// The submessage that a row says: 16 for a row that is none, 2, 16 for a field, then 3 or 4.
#[tactic(auto, unfolding(crate::specs::Saying::row_says))]
pub(crate) fn row_says(row: &[u64]) -> Result<Submessage, Refusal>
    ensures { result ≡ row_says row.now }
{
    let [id, a, b, c, _, _, _, _, ..] = row else {
        return Err(Refusal::OverLimit);
    };
    said_by(field(*id)?, *a, *b, *c)
}
