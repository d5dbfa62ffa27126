// The lines of a datagram: whether it is accepted, and how many submessages it has, is what the codec's check says.
ghost use Rattle.std.specs.Prelude.{◌≡◌, ◌≤◌, length, IfOk};
ghost use Rattle.codec.specs.Bytes.{put_of, put_bytes};
ghost use Rattle.codec.specs.Reading.{items, items_at};
ghost use Rattle.listing.specs.Text.{Adds, Put};
ghost use Rattle.listing.specs.Lines.{sub_lines, listed, lines_of};

use crate::text::Page;
use codec::header::{MESSAGE_HEADER_SIZE, SUBMESSAGE_HEADER_SIZE};
use codec::layouts::Cursor;
use codec::reading::{check, read};
use codec::refusals::Refusal;

// A line for each submessage of a datagram that is accepted.
fn put_subs(s: &[u8], page: &mut Page)
    requires { items_at s.now 4 ≡ items (listed (items_at s.now 4)) }
    ensures { Adds page.old (sub_lines 4 (listed (items_at s.now 4))) page.new }
{
    let mut here = MESSAGE_HEADER_SIZE;
    while let Ok((m, _, next)) = read(s, Cursor { at: here }) {
        let payload = here + SUBMESSAGE_HEADER_SIZE;
        page.line(b"sub", &[usize::from(m.id()), here, next.at - payload]);
        here = next.at;
    }
}

// The lines of what the check says.
fn put_answer(s: &[u8], page: &mut Page)
    ensures { Adds page.old (lines_of s.now) page.new }
{
    match check(s) {
        Ok((h, n)) => {
            let numbers = [
                h.session_id.into(),
                h.stream_id.into(),
                h.sequence_nr.into(),
            ];
            page.line(b"header", &numbers);
            put_subs(s, page);
            page.line(b"end", &[n]);
        }
        Err(r) => page.line(b"refused", &[r.number().into()]),
    }
}

// The lines from the start of the output on, and the place behind them.
fn put_lines(s: &[u8], out: &mut [u8], write: bool) -> usize
    ensures { Put write out.old 0 (lines_of s.now) result out.new }
{
    let mut page = Page { out, at: 0, write };
    put_answer(s, &mut page);
    page.at
}

// The lines at the start of the output, or 13 and no byte.
pub fn lines(s: &[u8], out: &mut [u8]) -> Result<usize, Refusal>
    ensures says { (result ≡ put_of out.old 0 (lines_of s.now))
        × (out.new ≡ put_bytes out.old 0 (lines_of s.now)) }
    ensures within { IfOk result (λ end. end ≤ length out.new) }
{
    let end = put_lines(s, out, false);
    if out.len() < end {
        return Err(Refusal::OutputTooShort);
    }
    put_lines(s, out, true);
    Ok(end)
}
