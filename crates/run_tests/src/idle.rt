//! Two idle processes, each linked to the other.
use crate::junction::slots;
use exit::Exit;
use kernel::run::Run;
use model::event::Event;
use model::link::Link;
use model::links::Links;
use model::opening::Opening;
use model::plan::Plan;
use model::refusal::Refusal;
use ring::store::Ring;
use road::kind::RoadKind;
use road::vehicle::Vehicle;
use std::alloc::Global;
use std::process::Abort;
use std::test::Fail;

fn circle(heap: Global) -> Result<Plan, Fail> {
    let there = Link {
        from: Some(0),
        to: 1,
        delay: 0,
    };
    let back = Link {
        from: Some(1),
        to: 0,
        delay: 0,
    };
    let links = vec![in heap; there, back]?;
    Plan::new(100, 2, links).ok_or_else(|| Fail::new("the plan is outside its limits"))
}

fn exits(heap: Global) -> Result<Vec<RoadKind>, Fail> {
    let exit = Exit::new(1).ok_or_else(|| Fail::new("an exit is outside its limits"))?;
    Ok(vec![in heap; RoadKind::Exit(exit); 2]?)
}

// Null messages alone bring both clocks to the horizon, one second at a time.
fn goes_on<S: Links<Vehicle> + Drop>(rt: &impl Abort, heap: Global, store: S) -> Result<(), Fail> {
    let mut run = Run::prepare(heap, circle(heap)?, exits(heap)?, &[], store, 4).map_err(
        |_| Fail::new("the run is not prepared"),
    )?;
    assert!(rt; !run.done(), "done at once");
    assert!(rt; run.run(1_000).quiet, "quiet");
    assert!(rt; run.done(), "done");
    assert_eq!(rt; run.clock(0), Ok(100));
    assert_eq!(rt; run.count(0), Ok(0));
    Ok(())
}

#[test]
fn idle_circle_goes_on(rt: HostRuntime) -> Result<(), Fail> {
    let mut slots = slots(rt.alloc(), 8)?;
    goes_on(&rt, rt.alloc(), Ring::new(slots.as_mut_slice(), 2))
}
