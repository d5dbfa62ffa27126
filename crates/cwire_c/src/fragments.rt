// The exports of cwire's `fragments`: each is that function, with its clauses.
ghost use Rattle.std.specs.Prelude.{◌≡◌};
ghost use Rattle.codec.specs.Answers.{count_answer, written_answer};
ghost use Rattle.codec.specs.Cutting.{count_of, fragment_of, fragment_out};
ghost use Rattle.cwire.specs.Answer.{packed};

#[unsafe(no_mangle)]
pub extern "C" fn xrce_wire_fragments(payload: &[u8], size: u64) -> u64
    ensures { result ≡ packed (count_answer (count_of payload.now size)) }
{
    cwire::fragments::xrce_wire_fragments(payload, size)
}

#[unsafe(no_mangle)]
pub extern "C" fn xrce_wire_fragment(payload: &[u8], size: u64, number: u16, out: &mut [u8]) -> u64
    ensures { (result ≡ packed (written_answer (fragment_of payload.now size number out.old)))
        × (out.new ≡ fragment_out payload.now size number out.old) }
{
    cwire::fragments::xrce_wire_fragment(payload, size, number, out)
}
