//! Switch plans: frames, and the switches that pass them on.
#![tactic(auto)]

pub mod frame;
pub mod kind;
pub mod switch;
