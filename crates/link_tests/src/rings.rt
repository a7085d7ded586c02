//! The ring follows the scripts, and keeps its limits.
use crate::parcel::Parcel;
use crate::script::{Call, Reply, blank, expect, follow};
use crate::scripts::{ABSENT, FRESH, filled, go_round, taken};
use model::cargo::Cargo;
use model::event::Event;
use model::fault::LinkFault;
use model::links::Links;
use ring::store::Ring;
use std::test::Fail;

#[test]
fn follows_the_scripts(rt: HostRuntime) {
    let mut slots = [blank(); 8];
    let mut ring = Ring::new(&mut slots, 2);
    follow(&rt, &mut ring, &FRESH);
    follow(&rt, &mut ring, &ABSENT);
    follow(&rt, &mut ring, &filled(0));
    follow(&rt, &mut ring, &taken(0));
    follow(&rt, &mut ring, &ABSENT);
}

#[test]
fn goes_round(rt: HostRuntime) {
    let mut slots = [blank(); 8];
    let mut ring = Ring::new(&mut slots, 2);
    go_round(&rt, &mut ring);
}

// The slots that an even division leaves over stay untouched, and the caller has all of them again.
#[test]
fn gives_the_slots_back(rt: HostRuntime) {
    let mut slots = [blank(); 11];
    let mut ring = Ring::new(&mut slots, 2);
    expect(&rt, &mut ring, Call::Capacity(1), Ok(Reply::Is(5)));
    expect(&rt, &mut ring, Call::Put(0, 3, 1), Ok(Reply::Done));
    expect(&rt, &mut ring, Call::Put(1, 4, 2), Ok(Reply::Done));
    assert_eq!(rt; slots[0].time, 3);
    assert_eq!(rt; slots[5].time, 4);
    assert_eq!(rt; slots[10].time, 0);
}

// What the capacity of link 0 is, of so many links over so many slots.
fn capacity(slots: &mut [Event<Parcel>], links: usize) -> Result<u32, LinkFault> {
    let ring = Ring::new(slots, links);
    ring.capacity(0)
}

#[test]
fn keeps_its_limits(rt: HostRuntime) -> Result<(), Fail> {
    let mut slots = slots::blank(rt.alloc(), 65_536, Parcel::new(0))?;
    assert!(rt; slots.len() == 65_536);
    assert_eq!(rt; capacity(&mut slots[0..3], 1), Err(LinkFault::NoSuchLink));
    assert_eq!(rt; capacity(&mut slots[0..4], 1), Ok(4));
    assert_eq!(rt; capacity(&mut slots[0..4], 0), Err(LinkFault::NoSuchLink));
    assert_eq!(rt;
        capacity(&mut slots[0..511], 128),
        Err(LinkFault::NoSuchLink)
    );
    assert_eq!(rt; capacity(&mut slots[0..512], 128), Ok(4));
    assert_eq!(rt;
        capacity(&mut slots[0..1000], 129),
        Err(LinkFault::NoSuchLink)
    );
    assert_eq!(rt; capacity(&mut slots[0..65_535], 1), Ok(65_535));
    assert_eq!(rt; capacity(&mut slots, 128), Err(LinkFault::NoSuchLink));
    Ok(())
}

#[test]
fn blank_slots_are_alike(rt: HostRuntime) -> Result<(), Fail> {
    let slots = slots::blank(rt.alloc(), 3, Parcel::new(7))?;
    assert_eq!(rt; slots.len(), 3);
    for event in &slots {
        assert_eq!(rt; event.time, 0);
        assert_eq!(rt; event.cargo.code(), 7);
    }
    Ok(())
}
