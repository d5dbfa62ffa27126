// The archive of the wire's C interface: the functions of `cwire` under their C names (include/xrce_wire.h).
#![tactic(auto)]

pub mod fragments;
pub mod parsing;
pub mod stores;
pub mod strings;
pub mod writing;
