//! Plans read from text.
mod adding;
pub mod cell;
pub mod families;
pub mod fields;
pub mod kinds;
mod lines;
pub mod lists;
mod lookups;
pub mod plan;
mod taking;
pub mod words;
