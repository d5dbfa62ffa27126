// What a submessage says: the ten kinds with their fixed fields, object kinds and status codes.
// The variable part (strings, data) stands beside a submessage, as a span of the datagram.
ghost use Rattle.std.specs.Prelude.{◌≡◌};
ghost use Rattle.codec.specs.Submessages.{kind_byte, kind_of, code_byte, code_of, id_of};

use crate::refusals::Refusal;

// The number by which a session names an object. It is never a bridge handle.
#[repr(C)]
#[derive(Clone, Copy, Debug, PartialEq, Eq, PartialOrd, Ord, Hash)]
pub struct ObjectNumber(pub u16);

#[derive(Clone, Copy, Debug, PartialEq, Eq, PartialOrd, Ord, Hash)]
pub enum ObjectKind {
    Participant = 1,
    Topic,
    Publisher,
    Subscriber,
    DataWriter,
    DataReader,
}

impl TryFrom<u8> for ObjectKind {
    type Error = Refusal;

    ghost try_from_gives = { λ v r. r ≡ kind_of v };

    #[tactic(auto, unfolding(crate::specs::Submessages::kind_of))]
    fn try_from(v: u8) -> Result<ObjectKind, Refusal> {
        match v {
            1 => Ok(ObjectKind::Participant),
            2 => Ok(ObjectKind::Topic),
            3 => Ok(ObjectKind::Publisher),
            4 => Ok(ObjectKind::Subscriber),
            5 => Ok(ObjectKind::DataWriter),
            6 => Ok(ObjectKind::DataReader),
            _ => Err(Refusal::UnknownObjectKind(v)),
        }
    }
}

impl ObjectKind {
    pub fn as_u8(self) -> u8
        ensures { result ≡ kind_byte self }
    {
        self as u8
    }
}

#[derive(Clone, Copy, Debug, PartialEq, Eq, PartialOrd, Ord, Hash)]
pub enum StatusCode {
    Ok,
    ErrUnknownRef,
    ErrInvalidData,
    ErrIncompatible,
    ErrResources,
}

impl TryFrom<u8> for StatusCode {
    type Error = Refusal;

    ghost try_from_gives = { λ v r. r ≡ code_of v };

    #[tactic(auto, unfolding(crate::specs::Submessages::code_of))]
    fn try_from(v: u8) -> Result<StatusCode, Refusal> {
        match v {
            0 => Ok(StatusCode::Ok),
            1 => Ok(StatusCode::ErrUnknownRef),
            2 => Ok(StatusCode::ErrInvalidData),
            3 => Ok(StatusCode::ErrIncompatible),
            4 => Ok(StatusCode::ErrResources),
            _ => Err(Refusal::UnknownStatusCode(v)),
        }
    }
}

impl StatusCode {
    pub fn as_u8(self) -> u8
        ensures { result ≡ code_byte self }
    {
        self as u8
    }
}

// The client's key is its four bytes read as one number, low byte first.
#[derive(Clone, Copy, Debug, PartialEq, Eq)]
pub struct CreateClientPayload {
    pub client_key: u32,
    pub properties: u8,
}

// The parent of a Participant is its domain; that of every other kind is an object's number.
#[derive(Clone, Copy, Debug, PartialEq, Eq)]
pub struct CreatePayload {
    pub object_id: ObjectNumber,
    pub kind: ObjectKind,
    pub parent_id: u16,
}

#[derive(Clone, Copy, Debug, PartialEq, Eq)]
pub struct DeletePayload {
    pub object_id: ObjectNumber,
}

#[derive(Clone, Copy, Debug, PartialEq, Eq)]
pub struct StatusPayload {
    pub related_object_id: ObjectNumber,
    pub status: StatusCode,
}

#[derive(Clone, Copy, Debug, PartialEq, Eq)]
pub struct WriteDataPayload {
    pub writer_id: ObjectNumber,
}

#[derive(Clone, Copy, Debug, PartialEq, Eq)]
pub struct ReadDataPayload {
    pub reader_id: ObjectNumber,
    pub max_samples: u16,
}

#[derive(Clone, Copy, Debug, PartialEq, Eq)]
pub struct DataPayload {
    pub reader_id: ObjectNumber,
}

#[derive(Clone, Copy, Debug, PartialEq, Eq)]
pub struct HeartbeatPayload {
    pub first_unacked_seq: u16,
    pub last_seq: u16,
}

#[derive(Clone, Copy, Debug, PartialEq, Eq)]
pub struct AcknackPayload {
    pub first_unacked_seq: u16,
    pub nack_bitmap: u16,
}

// Which of a cut's fragments a submessage holds, and how many there are.
#[derive(Clone, Copy, Debug, PartialEq, Eq)]
pub struct FragmentPayload {
    pub fragment_nr: u16,
    pub total_fragments: u16,
}

#[derive(Clone, Copy, Debug, PartialEq, Eq)]
pub enum Submessage {
    CreateClient(CreateClientPayload),
    Create(CreatePayload),
    Delete(DeletePayload),
    Status(StatusPayload),
    WriteData(WriteDataPayload),
    ReadData(ReadDataPayload),
    Data(DataPayload),
    Heartbeat(HeartbeatPayload),
    Acknack(AcknackPayload),
    Fragment(FragmentPayload),
}

impl Submessage {
    // The id under which the submessage stands on the wire.
    pub fn id(self) -> u8
        ensures { result ≡ id_of self }
    {
        match self {
            Submessage::CreateClient(_) => 0x00,
            Submessage::Create(_) => 0x01,
            Submessage::Delete(_) => 0x02,
            Submessage::Status(_) => 0x05,
            Submessage::WriteData(_) => 0x07,
            Submessage::ReadData(_) => 0x08,
            Submessage::Data(_) => 0x09,
            Submessage::Heartbeat(_) => 0x0D,
            Submessage::Acknack(_) => 0x0E,
            Submessage::Fragment(_) => 0x0F,
        }
    }
}
