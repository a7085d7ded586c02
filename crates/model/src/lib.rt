//! The vocabulary of the kernel: cargo, processes, links and plans, what the calls answer, and why they refuse.
#![tactic(auto)]

pub mod answer;
pub mod cargo;
pub mod event;
pub mod fault;
pub mod link;
pub mod links;
pub mod numbered;
pub mod opening;
pub mod plan;
pub mod process;
pub mod reading;
pub mod record;
pub mod refusal;
pub mod sending;
