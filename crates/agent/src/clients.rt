// CREATE_CLIENT: "always opens a new session, whatever the key."
ghost use Rattle.std.specs.Prelude.{◌≡◌};
ghost use Rattle.codec.specs.Bytes.{put_bytes};
ghost use Rattle.agent.specs.Run.{greeting_bytes, pointer_of};

use crate::replies::put_status;
use codec::refusals::Refusal;
use codec::submessages::{ObjectNumber, StatusCode};

// Its STATUS, "with the new id and OK, or id 0 and ERR_RESOURCES", goes by no header.
pub(crate) fn put_greeting(out: &mut [u8], at: usize, c: Result<(u8, u8), Refusal>)
    ensures { out.new ≡ put_bytes out.old at (greeting_bytes c) }
{
    let (id, code) = match c {
        Ok((id, _)) => (id, StatusCode::Ok),
        Err(_) => (0, StatusCode::ErrResources),
    };
    put_status(out, at, id, 0, ObjectNumber(0), code);
}

// The pointer goes on from the id taken; a full table leaves it.
pub(crate) fn pointer(c: Result<(u8, u8), Refusal>, next: u8) -> u8
    ensures { result ≡ pointer_of c next }
{
    c.map_or(next, |(_, n)| n)
}
