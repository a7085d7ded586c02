//! Calls of the links, and what they must answer.
use crate::parcel::Parcel;
use model::cargo::Cargo;
use model::event::Event;
use model::fault::LinkFault;
use model::links::Links;
use std::process::Abort;

#[derive(Clone, Copy)]
pub enum Call {
    // On a link, at a time, the parcel of a number.
    Put(usize, u32, u32),
    Null(usize, u32),
    First(usize),
    Take(usize),
    Floor(usize),
    Delay(usize),
    Waiting(usize),
    Free(usize),
    Capacity(usize),
}

#[derive(Clone, Copy, PartialEq, Debug)]
pub enum Reply {
    Done,
    // An event that arrives at a time with the parcel of a number.
    Arrives(u32, u32),
    Nothing,
    Is(u32),
}

pub type Answer = Result<Reply, LinkFault>;

impl From<Event<Parcel>> for Reply {
    fn from(event: Event<Parcel>) -> Self {
        Reply::Arrives(event.time, event.cargo.code())
    }
}

// An event to begin a slot with, which is never read.
pub fn blank() -> Event<Parcel> {
    Event {
        time: 0,
        cargo: Parcel::new(0),
    }
}

fn ask<L: Links<Parcel>>(links: &mut L, call: Call) -> Answer {
    match call {
        Call::Put(link, time, number) => links
            .put(link, time, Parcel::new(number))
            .map(|()| Reply::Done),
        Call::Null(link, time) => links.null(link, time).map(|()| Reply::Done),
        Call::First(link) => links
            .first(link)
            .map(|first| first.map_or(Reply::Nothing, Reply::from)),
        Call::Take(link) => links.take(link).map(Reply::from),
        Call::Floor(link) => links.floor(link).map(Reply::Is),
        Call::Delay(link) => links.delay(link).map(Reply::Is),
        Call::Waiting(link) => links.waiting(link).map(Reply::Is),
        Call::Free(link) => links.free(link).map(Reply::Is),
        Call::Capacity(link) => links.capacity(link).map(Reply::Is),
    }
}

// Makes one call, and compares the answer.
pub fn expect<L: Links<Parcel>>(rt: &impl Abort, links: &mut L, call: Call, answer: Answer) {
    assert_eq!(rt; ask(links, call), answer);
}

// Makes the calls in their order, and compares each answer.
pub fn follow<L: Links<Parcel>>(rt: &impl Abort, links: &mut L, script: &[(Call, Answer)]) {
    for (call, answer) in script {
        expect(rt, links, *call, *answer);
    }
}
