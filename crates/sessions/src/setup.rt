// Set-up, the counterpart of `SessionTable::new`: every store that the host lends is cleared.
ghost use Rattle.std.specs.Prelude.{◌≡◌, ◌≤◌, length};
ghost use Rattle.sessions.specs.Setup.{cleared, empty_sessions, empty_streams, empty_objects, set_up_of, leaves};

use crate::need::{stores_fit, stores_need};
use crate::objects::Object;
use crate::stream_rows::StreamRow;
use crate::table::SessionRow;
use codec::refusals::Refusal;
use codec::submessages::ObjectNumber;

// The first `n` records of a store become `nothing`; what it has beyond them stays.
#[tactic(auto, unfolding(crate::specs::Setup::cleared))]
fn clear<T: Copy>(store: &mut [T], n: usize, nothing: T)
    requires { n ≤ length store.old }
    ensures { store.new ≡ cleared n nothing store.old }
{
    for record in &mut store[..n] {
        *record = nothing;
    }
}

// Clears every table within its need, whatever stood there; what a table has beyond it stays. A row of zeros is a free id, row 0
// included, which never names a session, or no stream; a record of zeros is an implicit object of number 0 and of no kind. Of
// the held messages and the fragments only the number of bytes is asked: what no session holds is never read. A refusal
// changes nothing.
#[tactic(auto, unfolding(crate::specs::Setup::set_up_of, crate::specs::Need::stores_fit))]
pub fn set_up(
    sessions: &mut [SessionRow],
    streams: &mut [StreamRow],
    objects: &mut [Object],
    held: usize,
    parts: usize,
    lengths: usize,
    rebuilt: usize,
    max_clients: usize,
) -> Result<u8, Refusal>
    ensures { (result ≡ set_up_of (length sessions.old) (length streams.old) (length objects.old) held parts lengths rebuilt max_clients)
        × (sessions.new ≡ leaves result (empty_sessions sessions.old) sessions.old)
        × (streams.new ≡ leaves result (empty_streams streams.old) streams.old)
        × (objects.new ≡ leaves result (empty_objects objects.old) objects.old) }
{
    let fits = stores_fit(
        sessions.len(),
        streams.len(),
        objects.len(),
        held,
        parts,
        lengths,
        rebuilt,
        max_clients,
    );
    if !fits {
        return Err(Refusal::OverLimit);
    }
    let need = stores_need(max_clients);
    clear(sessions, need.sessions, [0; 8]);
    clear(streams, need.streams, [0; 35]);
    clear(
        objects,
        need.objects,
        Object::implicit(ObjectNumber(0), 0, 0),
    );
    Ok(1)
}
