// The C interface of the agent: numbers, byte slices and records of numbers only. include/xrce_agent.h declares it.
#![tactic(auto)]

pub mod answers;
pub mod calls;
pub mod inputs;
pub mod record;
pub mod told;
