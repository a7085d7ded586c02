//! The worked plan: a signal, and an exit twenty seconds behind it.
use anyhow::Context;
use exit::Exit;
use model::link::Link;
use model::opening::Opening;
use model::plan::Plan;
use road::kind::RoadKind;
use road::signal::Signal;
use road::signal::settings::Settings;
use road::vehicle::Vehicle;
use std::alloc::Global;

// How many processes and links the plan has, and the delay of the one from the signal to the exit.
pub const PROCESSES: usize = 2;

pub const LINKS: usize = 2;

pub const TO_EXIT: usize = 1;

pub const DELAY: u32 = 20;

pub fn plan(heap: Global) -> anyhow::Result<Plan> {
    let outside = Link {
        from: None,
        to: 0,
        delay: 0,
    };
    let to_exit = Link {
        from: Some(0),
        to: 1,
        delay: DELAY,
    };
    let links = vec![in heap; outside, to_exit]?;
    Plan::new(100, PROCESSES, links).context("the plan is outside its limits")
}

pub fn processes(heap: Global) -> anyhow::Result<Vec<RoadKind>> {
    let settings = Settings {
        lookahead: 5,
        cycle: 60,
        green: 30,
        offset: 0,
        headway: 2,
        crossing: 5,
    };
    let signal = Signal::new(settings).context("a signal is outside its limits")?;
    let exit = Exit::new(1).context("an exit is outside its limits")?;
    Ok(vec![in heap; RoadKind::Node(signal), RoadKind::Exit(exit)]?)
}

// Two vehicles that come together.
pub fn opening(heap: Global) -> anyhow::Result<Vec<Opening<Vehicle>>> {
    let cargo = Vehicle::new(0, 65_532).context("a vehicle is outside its limits")?;
    let event = Opening {
        link: 0,
        time: 10,
        cargo,
    };
    Ok(vec![in heap; event; 2]?)
}
