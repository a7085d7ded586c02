//! A store of links in a ring of slots for each link.
#![tactic(auto)]

mod lane;
pub mod store;
