//! Tests of the links: one script of calls for every store and layer.
#![tactic(auto)]

pub mod parcel;
#[cfg(test)]
mod rings;
#[cfg(test)]
mod script;
#[cfg(test)]
mod scripts;
#[cfg(test)]
mod stacks;
