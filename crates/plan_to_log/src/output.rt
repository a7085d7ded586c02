//! What becomes of a plan's text.
use model::reading::PlanFault;
use model::refusal::{Refusal, Unprepared};

// A process whose step is refused, where its clock stands.
#[derive(Clone, Copy)]
pub struct Standing {
    pub process: usize,
    pub clock: u32,
    pub why: Refusal,
}

// How it ended.
#[derive(Drop)]
pub enum Ending {
    // The text is no plan.
    NotRead(PlanFault),
    // There is no run of it.
    NotPrepared(Unprepared),
    // Every clock is at the horizon.
    Finished,
    // It is not: the processes whose steps are refused, rising.
    Unfinished(Vec<Standing>),
}

// The bytes to write, and how it ended.
#[derive(Drop)]
pub struct Output {
    pub text: Vec<u8>,
    pub ending: Ending,
}
