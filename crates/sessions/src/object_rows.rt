// The objects of one session: a lent row of records, of which the first `used` are in use. What a function decides by is
// in `objects`. A put needs the free places behind those in use, so `used` goes beside the row.
ghost use Rattle.std.specs.Prelude.{◌≡◌, ◌≤◌, length, Ok};
ghost use Rattle.std.specs.List.{list_any};
ghost use Rattle.sessions.specs.View.{entry_of};
ghost use Rattle.sessions.specs.Dependants.{depends_on};
ghost use Rattle.sessions.specs.Objects.{LastOf, object_place, found_of, stored_of, stored_row};
ghost use Rattle.sessions.specs.Removal.{depended_in, taken_of, removed_row};

use crate::objects::{Object, Stored, Taken, depends, is_above, is_numbered};
use codec::submessages::ObjectNumber;

// Where the last record of that number is. W4: the search goes down from the last one, since what was made last is used most.
fn last_of(row: &[Object], number: ObjectNumber) -> Option<usize>
    ensures { LastOf row.now (length row.now) number result }
{
    row.iter().rposition(|o| is_numbered(*o, number))
}

// The same of the records in use.
#[tactic(auto, using(crate::proofs::ObjectSearch::last_in_use))]
pub(crate) fn place(row: &[Object], used: usize, number: ObjectNumber) -> Option<usize>
    requires { used ≤ length row.now }
    ensures { result ≡ object_place row.now used number }
{
    last_of(&row[..used], number)
}

// The record of that number.
#[tactic(auto, using(crate::proofs::ObjectSearch::in_use))]
pub(crate) fn find(row: &[Object], used: usize, number: ObjectNumber) -> Option<Object>
    requires { used ≤ length row.now }
    ensures { Ok result ≡ found_of row.now (object_place row.now used number) }
{
    let i = place(row, used, number)?;
    Some(row[i])
}

// Replaces the record of that number, else adds one behind the last; in a full row another number has no place.
#[tactic(auto, using(crate::proofs::ObjectSearch::in_use))]
pub(crate) fn put(row: &mut [Object], used: usize, o: Object) -> Stored
    requires { (used ≤ length row.old) × (length row.old ≤ 32) }
    ensures { (Ok result ≡ stored_of row.old used o) × (row.new ≡ stored_row row.old used o) }
{
    if let Some(i) = place(row, used, o.number) {
        row[i] = o;
        return Stored::Count(used);
    }
    if used == row.len() {
        return Stored::Full;
    }
    row[used] = o;
    Stored::Count(used + 1)
}

// Whether one of these depends on the object: one pass.
fn any_depends(row: &[Object], o: Object) -> bool
    ensures { result ≡ list_any (λ x. depends_on (entry_of x) (entry_of o)) row.now }
{
    row.iter().any(|x| depends(*x, o))
}

// The same of the records in use, without the pass for a kind that nothing depends on.
#[tactic(auto, using(crate::proofs::DependantSearch::leaf, crate::proofs::DependantSearch::any_listed))]
pub(crate) fn depended(row: &[Object], used: usize, o: Object) -> bool
    requires { used ≤ length row.now }
    ensures { result ≡ depended_in row.now used o }
{
    is_above(o.kind) && any_depends(&row[..used], o)
}

// Takes the record of that number out, unless another depends on it; the last one moves into its place.
#[tactic(auto, using(crate::proofs::ObjectSearch::in_use))]
pub(crate) fn remove(row: &mut [Object], used: usize, number: ObjectNumber) -> Taken
    requires { used ≤ length row.old }
    ensures { (Ok result ≡ taken_of row.old used (object_place row.old used number))
        × (row.new ≡ removed_row row.old used (object_place row.old used number)) }
{
    let Some(i) = place(row, used, number) else {
        return Taken::Nothing;
    };
    let o = row[i];
    if depended(row, used, o) {
        return Taken::Depended;
    }
    row[i] = row[used - 1];
    Taken::Gone(o)
}
