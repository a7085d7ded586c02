#![tactic(auto)]

// Text as bytes: lines and their fields read, decimal numbers read and written, a buffer written piece by piece.
pub mod bytes;
pub mod fields;
pub mod lines;
pub mod numbers;
pub mod slate;
