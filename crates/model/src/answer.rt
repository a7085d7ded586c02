//! What the calls of a run answer.
use crate::event::Event;

// What a step did: the event that it took, and how many null messages it put.
#[derive(Clone, Copy)]
pub struct Stepped<C> {
    pub taken: Option<Event<C>>,
    pub nulls: u32,
}

// How many passes were made, and whether the last of them was quiet.
#[derive(Clone, Copy, PartialEq, Eq, Debug)]
pub struct Passed {
    pub passes: u32,
    pub quiet: bool,
}
