//! The safe event of a process.
ghost use Rattle.std.specs.Prelude.{◌≡◌, length};
ghost use Rattle.kernel.specs.Places.{Rising};
ghost use Rattle.kernel.specs.Searching.{SafeOr, Lowest};

use crate::asking::Present;
use crate::ports::Ports;
use model::cargo::Cargo;
use model::event::Event;
use model::links::Links;

// The safe event of a process, with its in-port and its link.
#[derive(Clone, Copy)]
pub(crate) struct Safe<C> {
    pub(crate) port: usize,
    pub(crate) link: usize,
    pub(crate) event: Event<C>,
}

impl<C: Cargo, L: Links<C>> Ports<'_, C, L> {
    // The first port whose clock is lowest, if that is below the horizon.
    fn lowest(&self, horizon: u32) -> Option<usize>
        ensures { Lowest (L.Links.meaning self.now.links.now) horizon self.now.list.now (length self.now.list.now) result }
    {
        let mut least = horizon;
        let mut at = None;
        for (port, link) in self.list.iter().enumerate() {
            let clock = Present::new(self.links, *link).clock();
            if clock < least {
                least = clock;
                at = Some(port);
            }
        }
        at
    }

    // The safe event, if there is one: the first event of the lowest link, passed on as the link has it.
    pub(crate) fn safe_event(&self, horizon: u32) -> Option<Safe<C>>
        requires { Rising self.now.list.now }
        ensures { SafeOr (L.Links.meaning self.now.links.now) horizon self.now.list.now result }
    {
        let port = self.lowest(horizon)?;
        let link = self.list[port];
        let event = Present::new(self.links, link).first()?;
        Some(Safe { port, link, event })
    }
}
