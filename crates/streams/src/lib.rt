// One stream of a session: session.rs's `StreamState` and its sequence numbers.
#![tactic(auto)]

pub mod acknowledged;
pub mod places;
pub mod received;
pub mod sent;
pub mod sequence;
pub mod state;
