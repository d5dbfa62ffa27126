// A submessage as a row of eight numbers.
ghost use Rattle.std.specs.Prelude.{◌≡◌};
ghost use Rattle.cwire.specs.Rows.{fields_of, row_of};

use codec::layouts::Span;
use codec::submessages::Submessage;

// The fixed fields of each kind; 0 where a kind has no such field.
fn fields_of(m: Submessage) -> [u64; 3]
    ensures { result ≡ fields_of m }
{
    match m {
        Submessage::CreateClient(p) => [p.client_key.into(), p.properties.into(), 0],
        Submessage::Create(p) => [
            p.object_id.0.into(),
            p.kind.as_u8().into(),
            p.parent_id.into(),
        ],
        Submessage::Delete(p) => [p.object_id.0.into(), 0, 0],
        Submessage::Status(p) => [p.related_object_id.0.into(), p.status.as_u8().into(), 0],
        Submessage::WriteData(p) => [p.writer_id.0.into(), 0, 0],
        Submessage::ReadData(p) => [p.reader_id.0.into(), p.max_samples.into(), 0],
        Submessage::Data(p) => [p.reader_id.0.into(), 0, 0],
        Submessage::Heartbeat(p) => [0, p.first_unacked_seq.into(), p.last_seq.into()],
        Submessage::Acknack(p) => [0, p.first_unacked_seq.into(), p.nack_bitmap.into()],
        Submessage::Fragment(p) => [0, p.fragment_nr.into(), p.total_fragments.into()],
    }
}

// The row of a submessage whose header stands at `at`: the id and the fields, then where the variable part and the header stand.
pub(crate) fn row_of(m: Submessage, x: Span, at: usize) -> [u64; 8]
    ensures { result ≡ row_of at m x }
{
    let [a, b, c] = fields_of(m);
    [
        m.id().into(),
        a,
        b,
        c,
        x.start as u64,
        x.len as u64,
        at as u64,
        0,
    ]
}
