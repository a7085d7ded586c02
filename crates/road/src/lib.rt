//! Road plans: vehicles, and the junctions that they cross.
#![tactic(auto)]

pub mod kind;
pub mod signal;
pub mod vehicle;
