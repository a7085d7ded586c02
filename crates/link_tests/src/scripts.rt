//! The scripts, for two links with four places each and no delay.
ghost use Rattle.std.specs.Prelude.{◌<◌};

use crate::parcel::Parcel;
use crate::script::Call::{Capacity, Delay, First, Floor, Free, Null, Put, Take, Waiting};
use crate::script::Reply::{Arrives, Done, Is, Nothing};
use crate::script::{Answer, Call, follow};
use model::fault::LinkFault::{BelowFloor, Full, NoSuchLink, NothingWaits, PastLastTime};
use model::links::Links;
use std::process::Abort;

// The links are fresh.
pub const FRESH: [(Call, Answer); 13] = [
    (Capacity(0), Ok(Is(4))),
    (Capacity(1), Ok(Is(4))),
    (Free(0), Ok(Is(4))),
    (Free(1), Ok(Is(4))),
    (Waiting(0), Ok(Is(0))),
    (Waiting(1), Ok(Is(0))),
    (Floor(0), Ok(Is(0))),
    (Floor(1), Ok(Is(0))),
    (Delay(0), Ok(Is(0))),
    (First(0), Ok(Nothing)),
    (First(1), Ok(Nothing)),
    (Take(0), Err(NothingWaits)),
    (Take(1), Err(NothingWaits)),
];

// One link is filled, and the other stays as it was. A link that is full names its store as the layer that has no place.
pub fn filled(store: u32) -> [(Call, Answer); 31] {
    [
        (Put(0, 5, 70), Ok(Done)),
        (Put(0, 5, 71), Ok(Done)),
        (Floor(0), Ok(Is(5))),
        (Put(0, 4, 72), Err(BelowFloor)),
        (Null(0, 4), Err(BelowFloor)),
        (Put(0, 1_000_000_001, 72), Err(PastLastTime)),
        (Null(0, 1_000_000_001), Err(PastLastTime)),
        (Put(0, 8, 72), Ok(Done)),
        (Free(0), Ok(Is(1))),
        (Null(0, 9), Ok(Done)),
        (Free(0), Ok(Is(1))),
        (Waiting(0), Ok(Is(3))),
        (Floor(0), Ok(Is(9))),
        (Put(0, 8, 73), Err(BelowFloor)),
        (Put(0, 9, 73), Ok(Done)),
        (Free(0), Ok(Is(0))),
        (Put(0, 9, 74), Err(Full(store))),
        // The first reason counts: the time before the place.
        (Put(0, 8, 74), Err(BelowFloor)),
        (Put(0, 1_000_000_001, 74), Err(PastLastTime)),
        (Null(0, 12), Ok(Done)),
        (Floor(0), Ok(Is(12))),
        (Waiting(0), Ok(Is(4))),
        (First(0), Ok(Arrives(5, 70))),
        (First(0), Ok(Arrives(5, 70))),
        (Capacity(0), Ok(Is(4))),
        (Free(1), Ok(Is(4))),
        (Waiting(1), Ok(Is(0))),
        (Floor(1), Ok(Is(0))),
        (First(1), Ok(Nothing)),
        (Put(1, 1_000_000_000, 80), Ok(Done)),
        (First(1), Ok(Arrives(1_000_000_000, 80))),
    ]
}

// All are taken, in the order in which they were put.
pub fn taken(store: u32) -> [(Call, Answer); 15] {
    [
        (Take(0), Ok(Arrives(5, 70))),
        (Free(0), Ok(Is(1))),
        (Floor(0), Ok(Is(12))),
        (Put(0, 12, 75), Ok(Done)),
        (Put(0, 12, 76), Err(Full(store))),
        (Take(0), Ok(Arrives(5, 71))),
        (Take(0), Ok(Arrives(8, 72))),
        (Take(0), Ok(Arrives(9, 73))),
        (First(0), Ok(Arrives(12, 75))),
        (Take(0), Ok(Arrives(12, 75))),
        (Take(0), Err(NothingWaits)),
        (Floor(0), Ok(Is(12))),
        (Free(0), Ok(Is(4))),
        (Take(1), Ok(Arrives(1_000_000_000, 80))),
        (Null(1, 1_000_000_000), Ok(Done)),
    ]
}

// A link that is not there refuses every call, and that reason comes first.
pub const ABSENT: [(Call, Answer); 10] = [
    (Put(2, 1_000_000_001, 90), Err(NoSuchLink)),
    (Put(2, 20, 90), Err(NoSuchLink)),
    (Null(2, 1_000_000_001), Err(NoSuchLink)),
    (First(2), Err(NoSuchLink)),
    (Take(2), Err(NoSuchLink)),
    (Floor(2), Err(NoSuchLink)),
    (Delay(2), Err(NoSuchLink)),
    (Waiting(2), Err(NoSuchLink)),
    (Free(2), Err(NoSuchLink)),
    (Capacity(2), Err(NoSuchLink)),
];

// Two events that stay on link 0 while link 1 goes round.
pub const STAY: [(Call, Answer); 2] = [(Put(0, 1, 91), Ok(Done)), (Put(0, 2, 92), Ok(Done))];

// They are taken at the end.
pub const STAYED: [(Call, Answer); 3] = [
    (Take(0), Ok(Arrives(1, 91))),
    (Take(0), Ok(Arrives(2, 92))),
    (Take(0), Err(NothingWaits)),
];

// One turn on link 1, three events put and taken again, from a time on.
pub fn turn(time: u32) -> [(Call, Answer); 8]
    requires { time < 1000000 }
{
    let number = time + 5000;
    [
        (Put(1, time, number), Ok(Done)),
        (Put(1, time + 1, number + 1), Ok(Done)),
        (Put(1, time + 2, number + 2), Ok(Done)),
        (Free(1), Ok(Is(1))),
        (Take(1), Ok(Arrives(time, number))),
        (Take(1), Ok(Arrives(time + 1, number + 1))),
        (Take(1), Ok(Arrives(time + 2, number + 2))),
        (Take(1), Err(NothingWaits)),
    ]
}

// Goes round link 1 many times over.
pub fn go_round<L: Links<Parcel>>(rt: &impl Abort, links: &mut L) {
    follow(rt, links, &STAY);
    for i in 0..1000 {
        follow(rt, links, &turn(3 * i));
    }
    follow(rt, links, &STAYED);
}
