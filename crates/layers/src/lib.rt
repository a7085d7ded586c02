//! Layers: each stands over any links, holds them by value, and is links again.
#![tactic(auto)]

pub mod delay;
mod fault;
mod fresh;
pub mod quota;
