// The exports of cwire's `parsing`: each is that function, with its clauses.
ghost use Rattle.std.specs.Prelude.{◌≡◌};
ghost use Rattle.codec.specs.Header.{header_read};
ghost use Rattle.cwire.specs.Answer.{packed};
ghost use Rattle.cwire.specs.Rows.{header_number, parse_of, parse_rows};

#[unsafe(no_mangle)]
pub extern "C" fn xrce_wire_header(datagram: &[u8]) -> u64
    ensures { result ≡ packed (header_number (header_read datagram.now)) }
{
    cwire::parsing::xrce_wire_header(datagram)
}

#[unsafe(no_mangle)]
pub extern "C" fn xrce_wire_parse(datagram: &[u8], rows: &mut [[u64; 8]]) -> u64
    ensures { (result ≡ parse_of datagram.now rows.old)
        × (rows.new ≡ parse_rows datagram.now rows.old) }
{
    cwire::parsing::xrce_wire_parse(datagram, rows)
}
