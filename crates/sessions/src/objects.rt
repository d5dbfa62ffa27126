// The record of an object, and what the rows of objects decide by, by value.
ghost use Rattle.std.specs.Prelude.{◌≡◌};
ghost use Rattle.sessions.specs.Objects.{bridged_of, implicit_of, handle_of, is_numbered};
ghost use Rattle.sessions.specs.View.{entry_of};
ghost use Rattle.sessions.specs.Dependants.{kinds_depend, depends_on};
ghost use Rattle.sessions.specs.Removal.{is_above};

use codec::submessages::ObjectNumber;

// What the bridge knows an entity by. One is made of a bridge's answer, or read out of a record that holds one: a bridge
// call takes this struct alone, so an object number never stands where a handle is due.
#[repr(C)]
#[derive(Clone, Copy, Debug, PartialEq, Eq)]
pub struct Handle(pub u32);

// Numbers only, so that a C host can lend a row of these. `bridged` is 0 where the object has no handle; the number
// `handle` becomes a `Handle` in `bridge_handle` alone, and only where there is one. `parent` is the parent number of the
// object's CREATE, whatever its kind: a Participant's is its domain.
#[repr(C)]
#[derive(Clone, Copy, Debug, PartialEq, Eq)]
pub struct Object {
    pub number: ObjectNumber,
    pub kind: u8,
    pub bridged: u8,
    pub handle: u32,
    pub parent: u16,
}

impl Object {
    // An object that the bridge made.
    pub fn bridged(number: ObjectNumber, kind: u8, handle: Handle, parent: u16) -> Object
        ensures { result ≡ bridged_of number kind handle parent }
    {
        Object {
            number,
            kind,
            bridged: 1,
            handle: handle.0,
            parent,
        }
    }

    // A Publisher or Subscriber, which has no handle.
    pub fn implicit(number: ObjectNumber, kind: u8, parent: u16) -> Object
        ensures { result ≡ implicit_of number kind parent }
    {
        Object {
            number,
            kind,
            bridged: 0,
            handle: 0,
            parent,
        }
    }

    pub fn bridge_handle(self) -> Option<Handle>
        ensures { result ≡ handle_of self }
    {
        if self.bridged == 0 {
            None
        } else {
            Some(Handle(self.handle))
        }
    }
}

// What taking a record out comes to: the record, or that another depends on it, which keeps it.
#[derive(Clone, Copy, Debug, PartialEq, Eq)]
pub enum Taken {
    Gone(Object),
    Depended,
    Nothing,
}

// What storing a record comes to: the number of records now in use, or that there is no place for another.
#[derive(Clone, Copy, Debug, PartialEq, Eq)]
pub enum Stored {
    Count(usize),
    Full,
    NotLive,
}

pub(crate) fn is_numbered(o: Object, n: ObjectNumber) -> bool
    ensures { result ≡ is_numbered o n }
{
    o.number.0 == n.0
}

// Only a Participant or a Topic may have a dependant.
pub(crate) fn is_above(kind: u8) -> bool
    ensures { result ≡ is_above kind }
{
    matches!(kind, 1 | 2)
}

// Document 02, W3: on a Participant a Topic depends, on a Topic a DataWriter or DataReader. Kinds are the bytes that a C record holds.
fn kinds_depend(kind: u8, named: u8) -> bool
    ensures { result ≡ kinds_depend kind named }
{
    matches!((named, kind), (1, 2) | (2, 5 | 6))
}

// Whether the first names the second as its parent, by kinds that depend so.
pub(crate) fn depends(o: Object, named: Object) -> bool
    ensures { result ≡ depends_on (entry_of o) (entry_of named) }
{
    o.parent == named.number.0 && kinds_depend(o.kind, named.kind)
}
