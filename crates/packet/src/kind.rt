//! The kinds of process on a switch plan.
use crate::switch::Switch;
use exit::kind::Kind;

// A process of a switch plan, whatever its kind: a switch, or an exit.
pub type PacketKind = Kind<Switch>;
