// Whether a CREATE of an object number has room, asked before any lookup or call: "CREATE of a 33rd number answers ERR_RESOURCES"; and, behind
// it, whether another object depends on the one that has the number (document 02, W3).
ghost use Rattle.std.specs.Prelude.{◌≡◌};
ghost use Rattle.sessions.specs.Room.{room_of};

use crate::need::MOST_OBJECTS;
use crate::objects::Object;
use crate::session_objects::{find_object, has_dependant};
use crate::table::{SessionRow, session_at};
use codec::refusals::Refusal;
use codec::submessages::ObjectNumber;

#[derive(Clone, Copy, Debug, PartialEq, Eq)]
pub enum Room {
    Free,
    Full,
    Depended,
    NotLive,
}

// A number that is held needs no new place.
#[tactic(auto, unfolding(crate::specs::Room::room_of))]
pub fn has_room(
    sessions: &[SessionRow],
    objects: &[Object],
    id: u8,
    number: ObjectNumber,
) -> Result<Room, Refusal>
    ensures { result ≡ room_of sessions.now objects.now id number }
{
    if let Some(o) = find_object(sessions, objects, id, number)? {
        let depended = has_dependant(sessions, objects, id, o);
        return Ok(if depended { Room::Depended } else { Room::Free });
    }
    let s = session_at(sessions, id);
    if s.live == 0 {
        Ok(Room::NotLive)
    } else if s.objects < MOST_OBJECTS as u64 {
        Ok(Room::Free)
    } else {
        Ok(Room::Full)
    }
}
