// Writing a message for C: a header, and one submessage given as a row and a body.
ghost use Rattle.std.specs.Prelude.{◌≡◌};
ghost use Rattle.codec.specs.Answers.{written_answer};
ghost use Rattle.cwire.specs.Answer.{packed};
ghost use Rattle.cwire.specs.Saying.{headed, row_says, write_by, out_by};

use crate::answers::answer;
use crate::saying::row_says;
use codec::header::MessageHeader;
use codec::refusals::Refusal;
use codec::writing::write_message;

// The message that the row says, with the bytes written.
fn write_row(
    out: &mut [u8],
    header: MessageHeader,
    row: &[u64],
    body: &[u8],
) -> Result<usize, Refusal>
    ensures { (result ≡ write_by (row_says row.now) header out.old body.now)
        × (out.new ≡ out_by (row_says row.now) header out.old body.now) }
{
    write_message(out, 0, header, row_says(row)?, body)
}

// The message at the start of the output: what the row is refused as, then 12, then 13, and then no byte changes.
pub fn xrce_wire_write(
    out: &mut [u8],
    session: u8,
    stream: u8,
    sequence: u16,
    row: &[u64],
    body: &[u8],
) -> u64
    ensures { (result ≡ packed (written_answer (write_by (row_says row.now) (headed session stream sequence) out.old body.now)))
        × (out.new ≡ out_by (row_says row.now) (headed session stream sequence) out.old body.now) }
{
    let header = MessageHeader {
        session_id: session,
        stream_id: stream,
        sequence_nr: sequence,
    };
    answer(write_row(out, header, row, body))
}
