// The exports of cwire's `writing`: each is that function, with its clauses.
ghost use Rattle.std.specs.Prelude.{◌≡◌};
ghost use Rattle.codec.specs.Answers.{written_answer};
ghost use Rattle.cwire.specs.Answer.{packed};
ghost use Rattle.cwire.specs.Saying.{headed, row_says, write_by, out_by};

#[unsafe(no_mangle)]
pub extern "C" fn xrce_wire_write(
    out: &mut [u8],
    session: u8,
    stream: u8,
    sequence: u16,
    row: &[u64],
    body: &[u8],
) -> u64
    ensures { (result ≡ packed (written_answer (write_by (row_says row.now) (headed session stream sequence) out.old body.now)))
        × (out.new ≡ out_by (row_says row.now) (headed session stream sequence) out.old body.now) }
{
    cwire::writing::xrce_wire_write(out, session, stream, sequence, row, body)
}
