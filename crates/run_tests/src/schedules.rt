//! Runs of one plan that are stepped in different orders over stores of different sizes.
use crate::junction::{LIGHTS, prepared, slots};
use kernel::run::Run;
use kernel::run::comparing::same_history;
use layers::delay::Delay;
use layers::quota::Quota;
use model::event::Event;
use model::links::Links;
use ring::store::Ring;
use road::kind::RoadKind;
use road::vehicle::Vehicle;
use std::alloc::Global;
use std::process::Abort;
use std::test::Fail;

// Steps the processes from the last to the first, so many times over.
fn backwards<L: Links<Vehicle>>(run: &mut Run<Vehicle, RoadKind, L>, times: u32) {
    for _ in 0..times {
        let _ = run.step(1);
        let _ = run.step(0);
    }
}

// The histories differ while one run is behind, and are the same once both are done.
fn compared<S: Links<Vehicle> + Drop, T: Links<Vehicle> + Drop>(
    rt: &impl Abort,
    heap: Global,
    first: S,
    second: T,
) -> Result<(), Fail> {
    let mut run = prepared(rt, heap, LIGHTS, first, 16, 16)?;
    let mut other = prepared(rt, heap, LIGHTS, second, 1, 16)?;
    let _ = run.run(8);
    backwards(&mut other, 1);
    assert!(rt; !same_history(&run, &other, 0), "one run is behind");
    backwards(&mut other, 20);
    assert!(rt; run.done() && other.done(), "done");
    assert!(rt; same_history(&run, &other, 0), "the signal");
    assert!(rt; same_history(&run, &other, 1), "the exit");
    Ok(())
}

#[test]
fn histories_are_the_same(rt: HostRuntime) -> Result<(), Fail> {
    let mut first = slots(rt.alloc(), 32)?;
    let mut second = slots(rt.alloc(), 8)?;
    compared(
        &rt,
        rt.alloc(),
        Ring::new(first.as_mut_slice(), 2),
        Ring::new(second.as_mut_slice(), 2),
    )
}
