// The line of a bridge call.
use crate::print::Hex;
use codec::layouts::Span;
use codec::reading::part;
use moves::proxy::BridgeCall;
use std::fmt;

// A call with the bytes that its submessage stands in: names and data are parts of them.
#[derive(Clone, Copy)]
pub struct Call<'a> {
    pub call: BridgeCall,
    pub bytes: &'a [u8],
}

impl Call<'_> {
    fn part(&self, span: Span) -> Hex<'_> {
        Hex(part(self.bytes, span))
    }
}

impl fmt::Display for Call<'_> {
    fn fmt<W: fmt::Write>(&self, f: &mut fmt::Formatter<W>) -> fmt::Result {
        match self.call {
            BridgeCall::CreateParticipant(domain) => {
                write!(f, "call create_participant {domain}")
            }
            BridgeCall::CreateTopic(parent, name, type_name) => write!(
                f,
                "call create_topic {} {} {}",
                parent.0,
                self.part(name),
                self.part(type_name)
            ),
            BridgeCall::CreateWriter(participant, topic) => {
                write!(f, "call create_writer {} {}", participant.0, topic.0)
            }
            BridgeCall::CreateReader(participant, topic) => {
                write!(f, "call create_reader {} {}", participant.0, topic.0)
            }
            BridgeCall::WriteData(writer, data) => {
                write!(f, "call write_data {} {}", writer.0, self.part(data))
            }
            BridgeCall::ReadData(reader) => write!(f, "call read_data {}", reader.0),
            BridgeCall::DeleteEntity(entity) => write!(f, "call delete_entity {}", entity.0),
        }
    }
}
