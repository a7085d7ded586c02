//! Room on the out-links.
ghost use Rattle.std.specs.Prelude.{◌≡◌};
ghost use Rattle.simulation.specs.Step.{first_full};

use crate::asking::Present;
use crate::ports::Ports;
use model::cargo::Cargo;
use model::links::Links;

impl<C: Cargo, L: Links<C>> Ports<'_, C, L> {
    // The lowest link that has no place free.
    pub(crate) fn lowest_full(&self) -> Option<usize>
        ensures { result ≡ first_full (L.Links.meaning self.now.links.now) self.now.list.now }
    {
        for link in self.list {
            if Present::new(self.links, *link).free() == 0 {
                return Some(*link);
            }
        }
        None
    }
}
