//! The kinds of process on a road plan.
use crate::signal::Signal;
use exit::kind::Kind;

// A process of a road plan, whatever its kind: a junction with a signal, or an exit.
pub type RoadKind = Kind<Signal>;
