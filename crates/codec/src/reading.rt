// Reading a datagram in place: the check of the whole, and one submessage at a cursor.
// A payload is neither copied nor scanned; `part` gives a span as that part of the caller's slice.
ghost use Rattle.std.specs.Prelude.{◌≡◌};
ghost use Rattle.codec.specs.Reading.{part_of, read_at, count_at, check_of};

use crate::failures::{check_room, end_at};
use crate::header::{MESSAGE_HEADER_SIZE, MessageHeader, SUBMESSAGE_HEADER_SIZE, SubmessageHeader};
use crate::layouts::{Cursor, Span, layout_at};
use crate::refusals::Refusal;
use crate::submessages::Submessage;

// The span as that part of the caller's slice, and an empty part where it runs past the end.
#[tactic(auto, unfolding(crate::specs::Reading::part_of))]
pub fn part(s: &[u8], span: Span) -> &[u8]
    ensures { result.now ≡ part_of s.now span }
{
    let start = span.start;
    let len = span.len;
    if start <= s.len() {
        if len <= s.len() - start {
            return &s[start..start + len];
        }
    }
    &s[0..0]
}

// The submessage at the cursor. Not by `end_at`: the layout looks at kind and code itself, and a datagram of ten took 1.4 times as long with both.
pub fn read(s: &[u8], c: Cursor) -> Result<(Submessage, Span, Cursor), Refusal>
    ensures { result ≡ read_at s.now c.at }
{
    let at = c.at;
    match SubmessageHeader::parse(s, at) {
        Ok(h) => {
            let start = at + SUBMESSAGE_HEADER_SIZE;
            let len = h.length as usize;
            check_room(s, h.submessage_id, start, len)?;
            layout_at(s, h.submessage_id, start, len)
        }
        Err(r) => Err(r),
    }
}

// The submessages from `from` to the end of the datagram, counted under the header given; the first failure refuses the whole. Nothing is
// built on the way. A datagram that is lent again is checked so from its place on.
pub fn count_at(
    s: &[u8],
    header: MessageHeader,
    from: usize,
) -> Result<(MessageHeader, usize), Refusal>
    ensures { result ≡ count_at header s.now from }
{
    // A `while`, since the bytes say where each turn ends, and the first failure ends all.
    let mut at = from;
    let mut n: usize = 0;
    while at < s.len() {
        at = end_at(s, at)?;
        n += 1;
    }
    Ok((header, n))
}

// The check of a whole datagram, which every other reading of it rests on.
pub fn check(s: &[u8]) -> Result<(MessageHeader, usize), Refusal>
    ensures { result ≡ check_of s.now }
{
    let header = MessageHeader::parse(s)?;
    if s.len() == MESSAGE_HEADER_SIZE {
        return Err(Refusal::BufferTooShort);
    }
    count_at(s, header, MESSAGE_HEADER_SIZE)
}
