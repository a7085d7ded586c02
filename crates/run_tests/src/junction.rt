//! A signal, and an exit twenty seconds behind it.
use exit::Exit;
use kernel::run::Run;
use layers::delay::Delay;
use layers::quota::Quota;
use model::event::Event;
use model::link::Link;
use model::links::Links;
use model::opening::Opening;
use model::plan::Plan;
use road::kind::RoadKind;
use road::signal::Signal;
use road::signal::settings::Settings;
use road::vehicle::Vehicle;
use std::alloc::Global;
use std::process::Abort;
use std::test::Fail;

pub const LIGHTS: Settings = Settings {
    lookahead: 5,
    cycle: 60,
    green: 30,
    offset: 0,
    headway: 2,
    crossing: 5,
};

// The layers that the junction's links have above their store.
pub type Stack<S> = Delay<Quota<S>>;

pub type Junction<S> = Run<Vehicle, RoadKind, Stack<S>>;

// Slots for a store, with an event that is never read.
pub fn slots(heap: Global, count: usize) -> Result<Vec<Event<Vehicle>>, Fail> {
    let cargo = Vehicle::new(0, 0).ok_or_else(|| Fail::new("a vehicle is outside its limits"))?;
    Ok(slots::blank(heap, count, cargo)?)
}

fn plan(heap: Global) -> Result<Plan, Fail> {
    let outside = Link {
        from: None,
        to: 0,
        delay: 0,
    };
    let to_exit = Link {
        from: Some(0),
        to: 1,
        delay: 20,
    };
    let links = vec![in heap; outside, to_exit]?;
    Plan::new(100, 2, links).ok_or_else(|| Fail::new("the plan is outside its limits"))
}

fn processes(heap: Global, lights: Settings) -> Result<Vec<RoadKind>, Fail> {
    let signal = Signal::new(lights).ok_or_else(|| Fail::new("a signal is outside its limits"))?;
    let exit = Exit::new(1).ok_or_else(|| Fail::new("an exit is outside its limits"))?;
    Ok(vec![in heap; RoadKind::Node(signal), RoadKind::Exit(exit)]?)
}

// Two vehicles that come together.
fn opening(heap: Global) -> Result<Vec<Opening<Vehicle>>, Fail> {
    let cargo = Vehicle::new(0, 65_532).ok_or_else(|| Fail::new(
        "a vehicle is outside its limits",
    ))?;
    let event = Opening {
        link: 0,
        time: 10,
        cargo,
    };
    Ok(vec![in heap; event; 2]?)
}

// A run of the junction over a store of two links, of which the one to the exit may hold so many events.
pub fn prepared<S: Links<Vehicle> + Drop>(
    rt: &impl Abort,
    heap: Global,
    lights: Settings,
    store: S,
    quota: u32,
    size: usize,
) -> Result<Junction<S>, Fail> {
    let mut below = Quota::new(store);
    assert!(rt; below.set(1, quota).is_ok(), "quota");
    let mut links = Delay::new(below);
    assert!(rt; links.set(1, 20).is_ok(), "delay");
    let events = opening(heap)?;
    Run::prepare(
        heap,
        plan(heap)?,
        processes(heap, lights)?,
        events.as_slice(),
        links,
        size,
    )
    .map_err(|_| Fail::new("the run is not prepared"))
}
