//! How a run is prepared.
ghost use Rattle.std.specs.Prelude.{◌≡◌, ℕ};
ghost use Rattle.model.specs.Made.{shape_of};
ghost use Rattle.model.specs.Shape.{outside_links};
ghost use Rattle.simulation.specs.Step.{Nulls};
ghost use Rattle.simulation.specs.Programs.{program_of};
ghost use Rattle.kernel.specs.OfRun.{view_of, Answered};
ghost use Rattle.kernel.specs.Deciding.{Decided};
ghost use Rattle.kernel.specs.Preparing.{FitsThere, Suits, Opened, Reserved, outside};

use super::{NotPrepared, Run};
use crate::asking::as_many;
use crate::marks::Marks;
use crate::nulls::tell;
use crate::routes::Routes;
use model::cargo::Cargo;
use model::links::Links;
use model::opening::Opening;
use model::plan::Plan;
use model::process::Process;
use model::record::Record;
use model::refusal::Unprepared;
use std::alloc::Global;
use std::marker::PhantomData;

// Whether a link is there, fresh, and has the delay that the plan gives it.
fn fits<C: Cargo, L: Links<C>>(links: &L, plan: &Plan, link: usize) -> bool
    ensures { Decided result (FitsThere (shape_of plan.now) (L.Links.meaning links.now) link) }
{
    let Some(planned) = plan.link(link) else {
        return false;
    };
    links.first(link).is_ok_and(|first| first.is_none())
        && links.floor(link) == Ok(planned.delay)
        && links.delay(link) == Ok(planned.delay)
}

// Why there is no run over these, if so: processes or links are not as many as planned, or a link does not fit.
fn suits<C: Cargo, P: Process<C>, L: Links<C>>(
    plan: &Plan,
    processes: &[P],
    links: &L,
) -> Result<(), Unprepared>
    ensures { Suits (shape_of plan.now) (L.Links.meaning links.now) processes.now result }
{
    if processes.len() != plan.processes() || !as_many(links, plan.link_count()) {
        return Err(Unprepared::WrongNumbers);
    }
    for link in 0..plan.link_count() {
        if !fits(links, plan, link) {
            return Err(Unprepared::NotFresh(link));
        }
    }
    Ok(()) // as planned, and fresh
}

// Whether a link is there and comes from outside.
fn from_outside(plan: &Plan, link: usize) -> bool
    ensures { result ≡ outside (shape_of plan.now) link }
{
    plan.link(link)
        .is_some_and(|planned| planned.from.is_none())
}

// Puts the opening events in order, each on a link from outside.
fn open<C: Cargo, L: Links<C>>(
    links: &mut L,
    plan: &Plan,
    opening: &[Opening<C>],
) -> Result<(), Unprepared>
    ensures { Opened (shape_of plan.now) (L.Links.meaning links.old) opening.now result (L.Links.meaning links.new) }
{
    for event in opening {
        if !from_outside(plan, event.link) {
            return Err(Unprepared::NotOutside(event.link));
        }
        links
            .put(event.link, event.time, event.cargo)
            .map_err(|fault| Unprepared::LinkRefused(event.link, fault))?;
    }
    Ok(())
}

// The memory of a run: its routes, and a log with room for so many records. Where it is wanting, the plan back.
fn reserve(heap: Global, plan: Plan, room: usize) -> Result<(Routes, Vec<Record>), Plan>
    ensures { Reserved plan room result }
{
    let routes = Routes::new(heap, plan)?;
    let Ok(log) = Vec::with_capacity(heap, room) else {
        return Err(routes.into_plan());
    };
    Ok((routes, log))
}

impl<C: Cargo, P: Process<C>, L: Links<C>> Run<C, P, L> {
    // Tells each link from outside that nothing more comes before the horizon.
    fn tell_outside(&mut self)
        ensures told { (n : ℕ) × Nulls (shape_of self.old.routes.plan).horizon (outside_links (shape_of self.old.routes.plan)) (L.Links.meaning self.old.links) n (L.Links.meaning self.new.links) }
        ensures else_same { view_of self.new ≡ record (view_of self.old) { links = L.Links.meaning self.new.links } }
    {
        let horizon = self.routes.horizon();
        for link in 0..self.routes.plan().link_count() {
            if from_outside(self.routes.plan(), link) {
                tell(&mut self.links, link, horizon);
            }
        }
    }

    // A run of the plan, from processes in their first states, opening events, fresh links and a log of this size.
    pub fn prepare(
        heap: Global,
        plan: Plan,
        processes: Vec<P>,
        opening: &[Opening<C>],
        mut links: L,
        size: usize,
    ) -> Result<Run<C, P, L>, NotPrepared<P, L>>
        ensures { Answered (program_of C.Cargo P.Process) plan processes opening.now links size result }
    {
        if let Err(why) = suits(&plan, processes.as_slice(), &links) {
            return Err(NotPrepared {
                why,
                plan,
                processes,
                links,
            });
        }
        let room = size.min(65_536);
        let (routes, log) = match reserve(heap, plan, room) {
            Ok(parts) => parts,
            Err(plan) => return Err(NotPrepared {
                why: Unprepared::NoMemory,
                plan,
                processes,
                links,
            }),
        };
        if let Err(why) = open(&mut links, routes.plan(), opening) {
            return Err(NotPrepared {
                why,
                plan: routes.into_plan(),
                processes,
                links,
            });
        }
        let marks = Marks::new(routes.plan().processes());
        let mut run = Run {
            routes,
            processes,
            links,
            log,
            room,
            marks,
            cargo: PhantomData,
        };
        run.tell_outside();
        Ok(run)
    }
}
