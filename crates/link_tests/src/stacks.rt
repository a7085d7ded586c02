//! Layers over the ring: delay, quota, and a stack of both, with the layer that each refusal names.
use crate::parcel::Parcel;
use crate::script::{Answer, Call, Reply, blank, follow};
use crate::scripts::{ABSENT, FRESH, filled, taken};
use layers::delay::Delay;
use layers::quota::Quota;
use model::fault::{LinkFault, SettingFault};
use model::links::Links;
use ring::store::Ring;
use std::process::Abort;

// Link 1 is 7 late: arrivals, floor and delay alike.
const LATE: [(Call, Answer); 6] = [
    (Call::Delay(1), Ok(Reply::Is(7))),
    (Call::Floor(1), Ok(Reply::Is(7))),
    (Call::Put(1, 3, 5), Ok(Reply::Done)),
    (Call::First(1), Ok(Reply::Arrives(10, 5))),
    (Call::Floor(1), Ok(Reply::Is(10))),
    (Call::Take(1), Ok(Reply::Arrives(10, 5))),
];

// Link 0 has a quota of 2, and the layer of the quota is the top.
const SHORT: [(Call, Answer); 8] = [
    (Call::Capacity(0), Ok(Reply::Is(2))),
    (Call::Put(0, 1, 1), Ok(Reply::Done)),
    (Call::Free(0), Ok(Reply::Is(1))),
    (Call::Put(0, 2, 2), Ok(Reply::Done)),
    (Call::Put(0, 3, 3), Err(LinkFault::Full(0))),
    (Call::Put(0, 1, 3), Err(LinkFault::BelowFloor)),
    (Call::Take(0), Ok(Reply::Arrives(1, 1))),
    (Call::Free(0), Ok(Reply::Is(1))),
];

// Link 0 is 5 late above a quota of 1 and 7 late below it; the quota is layer 1.
const DEEP: [(Call, Answer); 5] = [
    (Call::Delay(0), Ok(Reply::Is(12))),
    (Call::Put(0, 1, 1), Ok(Reply::Done)),
    (Call::Put(0, 2, 2), Err(LinkFault::Full(1))),
    (Call::First(0), Ok(Reply::Arrives(13, 1))),
    (Call::Floor(0), Ok(Reply::Is(13))),
];

fn delayed<S: Links<Parcel> + Drop>(rt: &impl Abort, store: S) {
    let mut links = Delay::new(store);
    assert_eq!(rt; links.set(2, 7), Err(SettingFault::NoSuchLink));
    assert_eq!(rt; links.set(1, 1_000_001), Err(SettingFault::Unsuitable));
    assert_eq!(rt; links.set(1, 7), Ok(()));
    follow(rt, &mut links, &LATE);
    assert_eq!(rt; links.set(1, 8), Err(SettingFault::Unsuitable));
}

fn unset<S: Links<Parcel> + Drop>(rt: &impl Abort, store: S) {
    let mut links = Delay::new(Quota::new(store));
    follow(rt, &mut links, &FRESH);
    follow(rt, &mut links, &ABSENT);
    follow(rt, &mut links, &filled(2));
    follow(rt, &mut links, &taken(2));
}

fn rationed<S: Links<Parcel> + Drop>(rt: &impl Abort, store: S) {
    let mut links = Quota::new(store);
    assert_eq!(rt; links.set(0, 0), Err(SettingFault::Unsuitable));
    assert_eq!(rt; links.set(0, 65_536), Err(SettingFault::Unsuitable));
    assert_eq!(rt; links.set(0, 2), Ok(()));
    follow(rt, &mut links, &SHORT);
    assert_eq!(rt; links.set(0, 3), Err(SettingFault::Unsuitable));
}

fn deep<S: Links<Parcel> + Drop>(rt: &impl Abort, store: S) {
    let mut lowest = Delay::new(store);
    assert_eq!(rt; lowest.set(0, 7), Ok(()));
    let mut middle = Quota::new(lowest);
    assert_eq!(rt; middle.set(0, 1), Ok(()));
    let mut top = Delay::new(middle);
    assert_eq!(rt; top.set(0, 5), Ok(()));
    follow(rt, &mut top, &DEEP);
}

#[test]
fn delay_over_ring(rt: HostRuntime) {
    let mut slots = [blank(); 8];
    delayed(&rt, Ring::new(&mut slots, 2));
}

#[test]
fn delay_over_quota_over_ring(rt: HostRuntime) {
    let mut slots = [blank(); 8];
    unset(&rt, Ring::new(&mut slots, 2));
}

#[test]
fn quota_over_ring(rt: HostRuntime) {
    let mut slots = [blank(); 8];
    rationed(&rt, Ring::new(&mut slots, 2));
}

#[test]
fn delay_over_quota_over_delay_over_ring(rt: HostRuntime) {
    let mut slots = [blank(); 8];
    deep(&rt, Ring::new(&mut slots, 2));
}
