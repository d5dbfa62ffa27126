// What a submessage must meet, in document 01's order: four header bytes, the whole payload, a known id, the least length, kind or
// status code. `check` goes by where a submessage ends, `read` by its layout, which looks at kind and code itself.
ghost use Rattle.std.specs.Prelude.{◌≡◌, ◌≢◌, ◌+◌, ◌≤◌, length, IfOk, IfErr, Err};
ghost use Rattle.codec.specs.Layouts.{least_of};
ghost use Rattle.codec.specs.Reading.{payload_at, end_of, end_at};

use crate::header::{SUBMESSAGE_HEADER_SIZE, SubmessageHeader};
use crate::layouts::{UNLISTED, least_len};
use crate::refusals::Refusal;
use crate::submessages::{ObjectKind, StatusCode};

// The rules that go before the layout: 1, then 2, then 5.
pub(crate) fn check_room(s: &[u8], id: u8, p: usize, len: usize) -> Result<(), Refusal>
    requires { p ≤ length s.now }
    ensures room { IfOk result (λ _. (p + len ≤ length s.now) × ((least_of id ≢ 255) × (least_of id ≤ len))) }
    ensures refused { IfErr result (λ r. Err r ≡ payload_at s.now id p len) }
{
    if s.len() - p < len {
        return Err(Refusal::BufferTooShort);
    }
    let least = least_len(id);
    if least == UNLISTED {
        return Err(Refusal::UnknownSubmessageId(id));
    }
    if len < least as usize {
        return Err(Refusal::PayloadLengthMismatch);
    }
    Ok(())
}

// Where the payload of `len` bytes at `p` under the id `id` ends, or its first failure: 1, 2 and 5, then 3 or 4.
fn payload_end(s: &[u8], id: u8, p: usize, len: usize) -> Result<usize, Refusal>
    requires { p ≤ length s.now }
    ensures { result ≡ end_of (payload_at s.now id p len) }
{
    check_room(s, id, p, len)?;
    match id {
        0x01 => {
            let _kind = ObjectKind::try_from(s[p + 2])?;
        }
        0x05 => {
            let _status = StatusCode::try_from(s[p + 2])?;
        }
        _ => {}
    }
    Ok(p + len)
}

// Where the submessage at `at` ends, or its first failure.
#[tactic(auto, unfolding(crate::specs::Reading::end_at, crate::specs::Reading::read_at))]
pub(crate) fn end_at(s: &[u8], at: usize) -> Result<usize, Refusal>
    ensures { result ≡ end_at s.now at }
{
    // No `?`: it keeps the header in one register, and a datagram of 127 submessages takes a tenth longer.
    match SubmessageHeader::parse(s, at) {
        Ok(h) => payload_end(
            s,
            h.submessage_id,
            at + SUBMESSAGE_HEADER_SIZE,
            h.length as usize,
        ),
        Err(r) => Err(r),
    }
}
