//! Runs that finish.
use crate::junction::{LIGHTS, prepared, slots};
use kernel::run::Run;
use layers::delay::Delay;
use layers::quota::Quota;
use model::answer::Passed;
use model::event::Event;
use model::links::Links;
use model::record::Record;
use model::refusal::Refusal;
use ring::store::Ring;
use road::kind::RoadKind;
use road::vehicle::Vehicle;
use std::alloc::Global;
use std::process::Abort;
use std::test::Fail;

fn finishes<S: Links<Vehicle> + Drop>(rt: &impl Abort, heap: Global, store: S) -> Result<(), Fail> {
    let mut run = prepared(rt, heap, LIGHTS, store, 4, 16)?;
    assert_eq!(rt;
        run.run(8),
        Passed {
            passes: 3,
            quiet: true,
        }
    );
    assert!(rt; run.done(), "done within eight rounds");
    assert_eq!(rt; run.rounds(), 3);
    let at_signal = Record {
        process: 0,
        link: 0,
        time: 10,
        code: 65_532,
    };
    let at_exit = Record {
        process: 1,
        link: 1,
        time: 35,
        code: 65_535,
    };
    for (place, record) in [
        (0, at_signal),
        (1, at_signal),
        (0, at_exit),
        (
            1,
            Record {
                time: 37,
                ..at_exit
            },
        ),
    ] {
        assert_eq!(rt; run.record(record.process, place), Ok(record), "at {place}");
    }
    assert_eq!(rt; run.count(0), Ok(2));
    assert_eq!(rt; run.count(1), Ok(2));
    Ok(())
}

#[test]
fn junction_finishes(rt: HostRuntime) -> Result<(), Fail> {
    let mut slots = slots(rt.alloc(), 8)?;
    finishes(&rt, rt.alloc(), Ring::new(slots.as_mut_slice(), 2))
}
