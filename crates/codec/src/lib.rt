// The wire of protocol.rs: what a datagram says, how one is written, strings and fragments.
#![tactic(auto)]

pub mod bytes;
pub mod cutting;
mod failures;
pub mod header;
pub mod layouts;
pub mod reading;
pub mod reassembly;
pub mod rebuilt;
pub mod refusals;
pub mod strings;
pub mod submessages;
pub mod text;
pub mod writing;
