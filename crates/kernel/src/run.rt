//! A run of a plan.
ghost use Rattle.std.specs.Prelude.{◌≡◌, ◌≤◌, length, vec_len, vec_capacity};
ghost use Rattle.model.specs.Made.{shape_of};

use crate::marks::Marks;
use crate::routes::Routes;
use model::cargo::Cargo;
use model::links::Links;
use model::plan::Plan;
use model::process::Process;
use model::record::Record;
use model::refusal::Unprepared;
use std::marker::PhantomData;

pub mod comparing;
mod passes;
mod prepare;
mod questions;
mod step;

// Where the processes, links and log of a run stand, who has stepped in this round, and how many rounds are over.
#[derive(Drop)]
pub struct Run<C: Cargo, P: Process<C>, L: Links<C>> {
    routes: Routes,
    processes: Vec<P>,
    links: L,
    log: Vec<Record>,
    room: usize,
    marks: Marks,
    cargo: PhantomData<C>,
    ghost peopled: { vec_len processes ≡ routes.plan.processes },
    ghost joined: { (L.Links.meaning links).count ≡ length (shape_of routes.plan).links },
    ghost counted: { marks.processes ≡ routes.plan.processes },
    ghost logged: { vec_len log ≤ room },
    ghost reserved: { room ≤ vec_capacity log },
}

// What prepare gives back where it refuses: why, and the parts as they then stand.
#[derive(Drop)]
pub struct NotPrepared<P, L> {
    pub why: Unprepared,
    pub plan: Plan,
    pub processes: Vec<P>,
    pub links: L,
}
