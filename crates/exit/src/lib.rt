//! An exit, where cargo of any kind leaves a net; a process that is a node of a family or an exit; and the limits that the
//! settings of all kinds share.
#![tactic(auto)]

ghost use Rattle.std.specs.Prelude.{◌≡◌, true};
ghost use Rattle.exit.specs.Limits.{between};

pub mod kind;
pub mod limits;
pub mod making;
pub mod process;

// A process that sends nothing. No exit outside the limits exists.
#[derive(Clone, Copy, PartialEq, Eq, Debug)]
pub struct Exit {
    lookahead: u32,
    ghost limits: { between 1 10000 lookahead ≡ true },
}
