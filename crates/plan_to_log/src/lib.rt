//! From what was read of a plan to its log.
#![tactic(auto)]

pub mod histories;
pub mod output;
mod reading;
mod running;
mod stack;
mod stores;
