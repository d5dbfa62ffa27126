// The objects of a session, by its id: 32 records a session, those of session s from record 32 * s on. Each function lends
// the session's own row and nothing else.
ghost use Rattle.std.specs.Prelude.{◌≡◌, ◌+◌, ◌-◌, ◌≤◌, length, Ok, true};
ghost use Rattle.sessions.specs.SessionObjects.{objects_named, used_of, first_object, object_row, keep_used, found_object, stored_object, stored_objects, keep_stored};
ghost use Rattle.sessions.specs.Removal.{taken_object, removed_objects, keep_removed, depended_object};

use crate::need::{MOST_OBJECTS, OBJECTS};
use crate::object_rows;
use crate::objects::{Object, Stored, Taken};
use crate::table::{ClientSession, SessionRow, keep_session, reached, session_at};
use codec::refusals::Refusal;
use codec::submessages::ObjectNumber;

// Whether the session's row can be looked into; then it lies in the store, and holds no more records than it has places.
#[tactic(auto, using(crate::proofs::session_objects::Laws::reached_row), unfolding(crate::specs::SessionObjects::objects_named))]
pub(crate) fn reach(sessions: &[SessionRow], objects: usize, id: u8) -> Result<bool, Refusal>
    ensures { (result ≡ objects_named sessions.now objects id)
        × (result ≡ Ok true → (first_object id + 32 ≤ objects) × (used_of sessions.now id ≤ 32)) }
{
    let used = session_at(sessions, id).objects;
    reached(sessions, id, used, MOST_OBJECTS as u64, objects, OBJECTS)
}

pub(crate) fn used(sessions: &[SessionRow], id: u8) -> usize
    ensures { result ≡ used_of sessions.now id }
{
    session_at(sessions, id).objects as usize
}

pub(crate) fn first(id: u8) -> usize
    ensures { result ≡ first_object id }
{
    MOST_OBJECTS * (id as usize)
}

pub(crate) fn behind(id: u8) -> usize
    ensures { result ≡ first_object id + 32 }
{
    first(id) + MOST_OBJECTS
}

// The session's records, as many as are in use and the free places behind them.
#[tactic(auto, unfolding(crate::specs::SessionObjects::object_row))]
pub(crate) fn row(objects: &[Object], id: u8) -> &[Object]
    requires { first_object id + 32 ≤ length objects.now }
    ensures { (result.now ≡ object_row objects.now id) × (length result.now ≡ 32) }
{
    &objects[first(id)..behind(id)]
}

fn keep_used(sessions: &mut [SessionRow], id: u8, n: u64)
    ensures { sessions.new ≡ keep_used sessions.old id n }
{
    let s = ClientSession {
        objects: n,
        ..session_at(sessions, id)
    };
    keep_session(sessions, id, s);
}

// The count that a store gives is kept.
fn keep_stored(sessions: &mut [SessionRow], id: u8, r: Stored)
    ensures { sessions.new ≡ keep_stored sessions.old id (Ok r) }
{
    if let Stored::Count(n) = r {
        keep_used(sessions, id, n as u64);
    }
}

// One record less is in use where one was taken out.
fn keep_removed(sessions: &mut [SessionRow], id: u8, r: Taken)
    ensures { sessions.new ≡ keep_removed sessions.old id (Ok r) }
{
    if let Taken::Gone(_) = r {
        let n = session_at(sessions, id).objects.saturating_sub(1);
        keep_used(sessions, id, n);
    }
}

// The object of that number.
#[tactic(auto, unfolding(crate::specs::SessionObjects::found_object))]
pub fn find_object(
    sessions: &[SessionRow],
    objects: &[Object],
    id: u8,
    number: ObjectNumber,
) -> Result<Option<Object>, Refusal>
    ensures { result ≡ found_object sessions.now objects.now id number }
{
    if !reach(sessions, objects.len(), id)? {
        return Ok(None);
    }
    Ok(object_rows::find(row(objects, id), used(sessions, id), number))
}

// Lists an object in place of one of its number.
#[tactic(auto, using(crate::proofs::session_objects::Laws::stored_lent, crate::proofs::session_objects::Laws::kept_lent), unfolding(crate::specs::SessionObjects::stored_object, crate::specs::SessionObjects::stored_objects))]
pub fn put_object(
    sessions: &mut [SessionRow],
    objects: &mut [Object],
    id: u8,
    o: Object,
) -> Result<Stored, Refusal>
    ensures { (result ≡ stored_object sessions.old objects.old id o)
        × (sessions.new ≡ keep_stored sessions.old id result)
        × (objects.new ≡ stored_objects sessions.old objects.old id o) }
{
    if !reach(sessions, objects.len(), id)? {
        return Ok(Stored::NotLive);
    }
    let n = used(sessions, id);
    let r = object_rows::put(&mut objects[first(id)..behind(id)], n, o);
    keep_stored(sessions, id, r);
    Ok(r)
}

// Whether another of the session's objects depends on this one.
#[tactic(auto, unfolding(crate::specs::Removal::depended_object))]
pub(crate) fn has_dependant(sessions: &[SessionRow], objects: &[Object], id: u8, o: Object) -> bool
    ensures { result ≡ depended_object sessions.now objects.now id o }
{
    matches!(reach(sessions, objects.len(), id), Ok(true))
        && object_rows::depended(row(objects, id), used(sessions, id), o)
}

// Drops the object of that number, unless another depends on it, and hands it back.
#[tactic(auto, using(crate::proofs::session_objects::Laws::taken_lent, crate::proofs::session_objects::Laws::removed_lent), unfolding(crate::specs::Removal::taken_object, crate::specs::Removal::removed_objects))]
pub fn remove_object(
    sessions: &mut [SessionRow],
    objects: &mut [Object],
    id: u8,
    number: ObjectNumber,
) -> Result<Taken, Refusal>
    ensures { (result ≡ taken_object sessions.old objects.old id number)
        × (sessions.new ≡ keep_removed sessions.old id result)
        × (objects.new ≡ removed_objects sessions.old objects.old id number) }
{
    if !reach(sessions, objects.len(), id)? {
        return Ok(Taken::Nothing);
    }
    let n = used(sessions, id);
    let r = object_rows::remove(&mut objects[first(id)..behind(id)], n, number);
    keep_removed(sessions, id, r);
    Ok(r)
}
