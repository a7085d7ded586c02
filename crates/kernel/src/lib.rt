//! The kernel: runs of a plan over any links, cargo and kind of process.
#![tactic(auto)]

mod asking;
mod clock;
mod marks;
mod nulls;
mod ports;
mod room;
mod routes;
pub mod run;
mod safety;
mod sending;
