// The lines that say what a datagram says: document 01's small program, as a function on bytes.
#![tactic(auto)]

mod message;
mod text;

pub use message::lines;
