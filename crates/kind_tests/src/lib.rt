//! Tests of the kinds of process and of their cargo.
#![tactic(auto)]

#[cfg(test)]
mod exits;
#[cfg(test)]
mod frames;
#[cfg(test)]
mod kinds;
#[cfg(test)]
mod missing;
#[cfg(test)]
mod signal_limits;
#[cfg(test)]
mod signals;
#[cfg(test)]
mod switches;
#[cfg(test)]
mod vehicles;
