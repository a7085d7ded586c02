//! What every kind of process does, on a plan of either family.
use exit::kind::Kind;
use model::cargo::Cargo;
use model::process::Process;
use std::fmt::Debug;
use std::process::Abort;

// An exit sends nothing at 3, and stays as it is.
pub fn sends_nothing<C: Cargo, P: Process<C> + PartialEq + Debug>(
    rt: &impl Abort,
    exit: Kind<P>,
    cargo: C,
) {
    let mut kind = exit;
    assert_eq!(rt; kind.lookahead(), 7);
    assert!(rt; kind.handle(0, 3, cargo).is_none());
    assert_eq!(rt; kind, exit);
}

// A node stays a node, and does what it does alone.
pub fn stays_a_node<C: Cargo, P: Process<C> + PartialEq + Debug>(
    rt: &impl Abort,
    mut node: P,
    time: u32,
    cargo: C,
    sends: bool,
) {
    let mut kind = Kind::Node(node);
    assert_eq!(rt; kind.lookahead(), 5);
    assert_eq!(rt; kind.handle(0, time, cargo).is_some(), sends);
    assert_ne!(rt; kind, Kind::Node(node), "free has changed");
    assert_eq!(rt; node.handle(0, time, cargo).is_some(), sends);
    assert_eq!(rt; kind, Kind::Node(node));
}
