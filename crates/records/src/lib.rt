//! Plans read from text, and logs written as text.
#![tactic(auto)]

pub mod log;
pub mod reading;
