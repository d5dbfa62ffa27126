// What a submessage of a live session comes to, over the session's rows: the rules of proxy.rs and of agent.rs's handlers.
#![tactic(auto)]

pub mod answers;
pub mod handle;
pub mod moves;
pub mod names;
pub mod objects;
pub mod proxy;
pub mod stream_moves;
