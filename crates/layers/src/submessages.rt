// The line of a submessage: its name, its fields in the order of the wire, and its variable part.
use crate::print::{Hex, Key};
use codec::submessages::Submessage;
use std::io;
use std::io::Write;

// What a submessage says; `body` is its variable part.
pub fn submessage(to: &mut impl Write, m: Submessage, body: &[u8]) -> io::Result<()> {
    let body = Hex(body);
    match m {
        Submessage::CreateClient(p) => {
            let key = Key(u64::from(p.client_key));
            writeln!(to, "create_client {key} {}", p.properties)
        }
        Submessage::Create(p) => writeln!(
            to,
            "create {} {} {} {body}",
            p.object_id.0,
            p.kind.as_u8(),
            p.parent_id
        ),
        Submessage::Delete(p) => writeln!(to, "delete {}", p.object_id.0),
        Submessage::Status(p) => writeln!(
            to,
            "status {} {}",
            p.related_object_id.0,
            p.status.as_u8()
        ),
        Submessage::WriteData(p) => writeln!(to, "write_data {} {body}", p.writer_id.0),
        Submessage::ReadData(p) => writeln!(to, "read_data {} {}", p.reader_id.0, p.max_samples),
        Submessage::Data(p) => writeln!(to, "data {} {body}", p.reader_id.0),
        Submessage::Heartbeat(p) => {
            writeln!(to, "heartbeat {} {}", p.first_unacked_seq, p.last_seq)
        }
        Submessage::Acknack(p) => {
            writeln!(to, "acknack {} {}", p.first_unacked_seq, p.nack_bitmap)
        }
        Submessage::Fragment(p) => writeln!(
            to,
            "fragment {} {} {body}",
            p.fragment_nr, p.total_fragments
        ),
    }
}
