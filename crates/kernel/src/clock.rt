//! Clocks of links and of processes.
ghost use Rattle.std.specs.Prelude.{◌≡◌, ◌≤◌};
ghost use Rattle.simulation.specs.View.{link_clock, least_clock};

use crate::asking::Present;
use crate::ports::Ports;
use model::cargo::Cargo;
use model::links::Links;

impl<C: Cargo, L: Links<C>> Present<'_, C, L> {
    // The arrival of the first event, else the floor.
    pub(crate) fn clock(&self) -> u32
        ensures { result ≡ link_clock (L.Links.meaning self.now.links.now) self.now.link }
    {
        match self.first() {
            Some(event) => event.time,
            None => self.floor(),
        }
    }
}

impl<C: Cargo, L: Links<C>> Ports<'_, C, L> {
    // The smallest of the horizon and the clocks of the links.
    pub(crate) fn clock(&self, horizon: u32) -> u32
        ensures below { result ≤ horizon }
        ensures is { result ≡ least_clock (L.Links.meaning self.now.links.now) horizon self.now.list.now }
    {
        let mut clock = horizon;
        for link in self.list {
            clock = clock.min(Present::new(self.links, *link).clock());
        }
        clock
    }
}
