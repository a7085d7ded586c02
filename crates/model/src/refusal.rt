//! Why a run is not prepared, and why its calls refuse.
use crate::fault::LinkFault;

// Why a sending is a breach of the lookahead.
#[derive(Clone, Copy, PartialEq, Eq, Debug)]
pub enum Cause {
    Early,
    TooFar,
    Overtaking,
}

// A sending that a process may not make: by whom, on which link, at what time, and why not.
#[derive(Clone, Copy, PartialEq, Eq, Debug)]
pub struct Breach {
    pub process: usize,
    pub link: usize,
    pub time: u32,
    pub cause: Cause,
}

// Why a step or a question is refused.
#[derive(Clone, Copy, PartialEq, Eq, Debug)]
pub enum Refusal {
    // No such process or record, or a run that is not as it was prepared.
    NoSuch,
    // The lowest out-link that has no place free.
    Held(usize),
    LogFull,
    Breached(Breach),
}

// Why a run is not prepared.
#[derive(Clone, Copy, PartialEq, Eq, Debug)]
pub enum Unprepared {
    // Processes or links are not as many as planned.
    WrongNumbers,
    // The lowest link that is not fresh or has another delay.
    NotFresh(usize),
    // An opening event on a link that is none, or is not from outside.
    NotOutside(usize),
    // A put or a null was refused.
    LinkRefused(usize, LinkFault),
    // There was no memory for the run's own tables.
    NoMemory,
}
