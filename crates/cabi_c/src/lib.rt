// The archive of the agent's C interface: the functions of `cabi` under their C names (include/xrce_agent.h).
#![tactic(auto)]

pub mod calls;
