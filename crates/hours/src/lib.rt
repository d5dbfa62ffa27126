// Quiet hours (document 02, W8): the windows that set-up takes, the week's minutes that are kept of them, and the first open minute.
#![tactic(auto)]

pub mod week;
pub mod windows;
