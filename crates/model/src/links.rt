//! What holds the events on their way: all links of a run, as one pile.
ghost use Rattle.model.specs.Pile.{Pile, Sound};
ghost use Rattle.model.specs.Linking.{Put, Null, Take, First, Asked};
ghost use Rattle.std.specs.Prelude.{length};

use crate::cargo::Cargo;
use crate::event::Event;
use crate::fault::LinkFault;

// Nothing is put at a later time.
pub const LAST_TIME: u32 = 1_000_000_000;

pub trait Links<C: Cargo> {
    ghost meaning: { Self → Pile C };

    ghost sound: { (s : Self) → Sound (meaning s) };

    // Puts an event on a link, at a time to which the link's delay is added.
    fn put(&mut self, link: usize, time: u32, cargo: C) -> Result<(), LinkFault>
        ensures { Put (meaning self.old) link time cargo result (meaning self.new) };

    // Puts a null message: nothing will be put before this time.
    fn null(&mut self, link: usize, time: u32) -> Result<(), LinkFault>
        ensures { Null (meaning self.old) link time result (meaning self.new) };

    // The oldest waiting event, or none.
    fn first(&self, link: usize) -> Result<Option<Event<C>>, LinkFault>
        ensures { First (meaning self.now) link result };

    // Removes the oldest waiting event.
    fn take(&mut self, link: usize) -> Result<Event<C>, LinkFault>
        ensures { Take (meaning self.old) link result (meaning self.new) };

    fn floor(&self, link: usize) -> Result<u32, LinkFault>
        ensures { Asked (meaning self.now) link ((meaning self.now).floor link) result };

    fn delay(&self, link: usize) -> Result<u32, LinkFault>
        ensures { Asked (meaning self.now) link ((meaning self.now).delay link) result };

    // How many events wait.
    fn waiting(&self, link: usize) -> Result<u32, LinkFault>
        ensures { Asked (meaning self.now) link (length ((meaning self.now).waiting link)) result };

    // How many places are left.
    fn free(&self, link: usize) -> Result<u32, LinkFault>
        ensures { Asked (meaning self.now) link ((meaning self.now).free link) result };

    // How many places there are in all.
    fn capacity(&self, link: usize) -> Result<u32, LinkFault>
        ensures { Asked (meaning self.now) link ((meaning self.now).capacity link) result };
}
