// The exports of cwire's `strings`: each is that function, with its clauses.
ghost use Rattle.std.specs.Prelude.{◌≡◌};
ghost use Rattle.codec.specs.Strings.{string_at};
ghost use Rattle.cwire.specs.Answer.{packed, string_number};

#[unsafe(no_mangle)]
pub extern "C" fn xrce_wire_string(bytes: &[u8], at: usize) -> u64
    ensures { result ≡ packed (string_number (string_at bytes.now at)) }
{
    cwire::strings::xrce_wire_string(bytes, at)
}
