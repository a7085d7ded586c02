//! A layer that adds a delay of its own to each link.
ghost use Rattle.std.specs.Prelude.{◌≡◌, replicate, None};
ghost use Rattle.layers.specs.Layer.{Laid};
ghost use Rattle.layers.specs.Delayed.{delayed, added, later, DelayTable, DelaySet};
ghost use Rattle.model.specs.Linking.{Asked};
ghost use Rattle.layers.specs.Soundness.{delayed_sound};

use crate::fault::{absent, passed_on};
use crate::fresh::is_fresh;
use model::cargo::Cargo;
use model::event::Event;
use model::fault::{LinkFault, SettingFault};
use model::links::Links;

// The longest delay of a link, all layers together.
pub const LONGEST_DELAY: u32 = 1_000_000;

// The links below, and what is added to the delay of each.
#[derive(Drop)]
pub struct Delay<L> {
    below: L,
    extra: [u32; 128],
}

// The event, so much later.
fn postponed<C: Cargo>(event: Event<C>, by: u32) -> Event<C>
    ensures { result ≡ later by event }
{
    Event {
        time: event.time.saturating_add(by),
        cargo: event.cargo,
    }
}

impl<L> Delay<L> {
    // Lays a layer that adds nothing yet over these links.
    pub fn new<C: Cargo>(below: L) -> Self
    where
        L: Links<C>,
        ensures held { (result.below ≡ below) × (result.extra ≡ replicate 128 0) }
        ensures meaning { Laid None (L.Links.meaning below) (delayed (L.Links.meaning result.below) result.extra) }
    {
        Delay {
            below,
            extra: [0; 128],
        }
    }

    // The links below, as they stand.
    pub fn into_below(self) -> L
        ensures { result ≡ self.below }
    {
        self.below
    }

    // Sets what this layer adds on a fresh link, in place of what it added before.
    pub fn set<C: Cargo>(&mut self, link: usize, delay: u32) -> Result<(), SettingFault>
    where
        L: Links<C>,
        ensures below { self.new.below ≡ self.old.below }
        ensures table { DelayTable (L.Links.meaning self.old.below) self.old.extra link delay result self.new.extra }
        ensures meaning { DelaySet (L.Links.meaning self.old.below) self.old.extra link delay result (delayed (L.Links.meaning self.new.below) self.new.extra) }
    {
        let below = self.below.delay(link).map_err(absent)?;
        let fresh = is_fresh(&self.below, link).map_err(absent)?;
        if !fresh || delay > LONGEST_DELAY - below {
            return Err(SettingFault::Unsuitable);
        }
        self.extra[link] = delay;
        Ok(())
    }

    // What this layer adds on a link.
    fn added<C: Cargo>(&self, link: usize) -> Result<u32, LinkFault>
    where
        L: Links<C>,
        ensures { Asked (L.Links.meaning self.now.below) link (added (L.Links.meaning self.now.below) self.now.extra link) result }
    {
        let below = self.below.delay(link)?;
        Ok(self.extra[link].min(LONGEST_DELAY - below))
    }
}

impl<C: Cargo, L: Links<C>> Links<C> for Delay<L> {
    ghost meaning = { λ s. delayed (L.Links.meaning s.below) s.extra };

    ghost sound = { λ s. delayed_sound (L.Links.meaning s.below) s.extra (L.Links.sound s.below) };

    fn put(&mut self, link: usize, time: u32, cargo: C) -> Result<(), LinkFault> {
        self.below.put(link, time, cargo).map_err(passed_on)
    }

    fn null(&mut self, link: usize, time: u32) -> Result<(), LinkFault> {
        self.below.null(link, time)
    }

    fn first(&self, link: usize) -> Result<Option<Event<C>>, LinkFault> {
        let by = self.added(link)?;
        let first = self.below.first(link)?;
        Ok(first.map(|event| postponed(event, by)))
    }

    fn take(&mut self, link: usize) -> Result<Event<C>, LinkFault> {
        let by = self.added(link)?;
        let event = self.below.take(link)?;
        Ok(postponed(event, by))
    }

    fn floor(&self, link: usize) -> Result<u32, LinkFault> {
        let by = self.added(link)?;
        let floor = self.below.floor(link)?;
        Ok(floor + by)
    }

    fn delay(&self, link: usize) -> Result<u32, LinkFault> {
        let by = self.added(link)?;
        let delay = self.below.delay(link)?;
        Ok(delay + by)
    }

    fn waiting(&self, link: usize) -> Result<u32, LinkFault> {
        self.below.waiting(link)
    }

    fn free(&self, link: usize) -> Result<u32, LinkFault> {
        self.below.free(link)
    }

    fn capacity(&self, link: usize) -> Result<u32, LinkFault> {
        self.below.capacity(link)
    }
}
