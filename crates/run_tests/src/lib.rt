//! Tests of runs over stacks of links.
#![tactic(auto)]

#[cfg(test)]
mod finished;
#[cfg(test)]
mod idle;
#[cfg(test)]
mod junction;
#[cfg(test)]
mod refused;
#[cfg(test)]
mod schedules;
