// The sessions of session.rs: the table of sessions by id, and the objects and streams of each. A function takes the tables that it needs, one by one,
// and no struct of all: its parameters show what it can't change (decision 186).
#![tactic(auto)]

pub mod fragments;
pub mod limits;
pub mod need;
pub mod object_list;
pub mod object_rows;
pub mod objects;
pub mod opening;
pub mod room;
pub mod sending;
pub mod session_objects;
pub mod session_streams;
pub mod setup;
pub mod stream_rows;
pub mod sweep;
pub mod table;
