//! Steps that are refused, and what is left then.
use crate::junction::{LIGHTS, prepared, slots};
use kernel::run::Run;
use layers::delay::Delay;
use layers::quota::Quota;
use model::answer::Passed;
use model::event::Event;
use model::links::Links;
use model::refusal::{Breach, Cause, Refusal};
use ring::store::Ring;
use road::kind::RoadKind;
use road::signal::settings::Settings;
use road::vehicle::Vehicle;
use std::alloc::Global;
use std::process::Abort;
use std::test::Fail;

// The link to the exit has one place: the second vehicle waits until the exit has taken the first.
fn held<S: Links<Vehicle> + Drop>(rt: &impl Abort, heap: Global, store: S) -> Result<(), Fail> {
    let mut run = prepared(rt, heap, LIGHTS, store, 1, 16)?;
    assert_eq!(rt; run.step(0).err(), None);
    assert_eq!(rt; run.step(0).err(), Some(Refusal::Held(1)));
    assert_eq!(rt; run.count(0), Ok(1));
    assert_eq!(rt; run.step(1).err(), None);
    assert_eq!(rt; run.count(1), Ok(1));
    assert_eq!(rt; run.step(0).err(), None);
    assert_eq!(rt; run.count(0), Ok(2));
    Ok(())
}

// The log has room for one record.
fn log_full<S: Links<Vehicle> + Drop>(rt: &impl Abort, heap: Global, store: S) -> Result<(), Fail> {
    let mut run = prepared(rt, heap, LIGHTS, store, 4, 1)?;
    assert_eq!(rt; run.step(0).err(), None);
    assert_eq!(rt; run.step(0).err(), Some(Refusal::LogFull));
    assert_eq!(rt; run.count(0), Ok(1));
    assert_eq!(rt; run.clock(0), Ok(10));
    Ok(())
}

// The signal promises 10 seconds and crosses in 5.
fn breached<S: Links<Vehicle> + Drop>(rt: &impl Abort, heap: Global, store: S) -> Result<(), Fail> {
    let mut run = prepared(
        rt,
        heap,
        Settings {
            lookahead: 10,
            ..LIGHTS
        },
        store,
        4,
        16,
    )?;
    let breach = Breach {
        process: 0,
        link: 1,
        time: 15,
        cause: Cause::Early,
    };
    assert_eq!(rt; run.step(0).err(), Some(Refusal::Breached(breach)));
    assert_eq!(rt; run.count(0), Ok(0));
    assert_eq!(rt; run.step(0).err(), Some(Refusal::Breached(breach)), "again");
    Ok(())
}

// There are processes 0 and 1 only, and no pass is made unless it is asked for.
fn absent<S: Links<Vehicle> + Drop>(rt: &impl Abort, heap: Global, store: S) -> Result<(), Fail> {
    let mut run = prepared(rt, heap, LIGHTS, store, 4, 16)?;
    assert_eq!(rt; run.step(2).err(), Some(Refusal::NoSuch));
    assert_eq!(rt; run.clock(2), Err(Refusal::NoSuch));
    assert_eq!(rt; run.count(2), Err(Refusal::NoSuch));
    assert_eq!(rt;
        run.run(0),
        Passed {
            passes: 0,
            quiet: false,
        }
    );
    assert_eq!(rt; run.rounds(), 0);
    Ok(())
}

#[test]
fn sender_is_held(rt: HostRuntime) -> Result<(), Fail> {
    let mut slots = slots(rt.alloc(), 8)?;
    held(&rt, rt.alloc(), Ring::new(slots.as_mut_slice(), 2))
}

#[test]
fn log_of_one_is_full(rt: HostRuntime) -> Result<(), Fail> {
    let mut slots = slots(rt.alloc(), 8)?;
    log_full(&rt, rt.alloc(), Ring::new(slots.as_mut_slice(), 2))
}

#[test]
fn broken_promise_is_refused(rt: HostRuntime) -> Result<(), Fail> {
    let mut slots = slots(rt.alloc(), 8)?;
    breached(&rt, rt.alloc(), Ring::new(slots.as_mut_slice(), 2))
}

#[test]
fn absent_process_is_refused(rt: HostRuntime) -> Result<(), Fail> {
    let mut slots = slots(rt.alloc(), 8)?;
    absent(&rt, rt.alloc(), Ring::new(slots.as_mut_slice(), 2))
}
