// The wire for C: what a datagram says and a message to be written as rows of numbers, and fragments over lent stores.
// A slice goes in as a pointer and a length, and each answer is one number (answers.rt); include/xrce_wire.h is its description for C.
#![tactic(auto)]

mod answers;
pub mod fragments;
mod limits;
pub mod parsing;
mod rows;
mod saying;
pub mod stores;
pub mod strings;
pub mod writing;
