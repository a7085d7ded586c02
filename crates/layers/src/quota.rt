//! A layer that lets only so many events wait on each link.
ghost use Rattle.std.specs.Prelude.{◌≡◌, replicate, Some};
ghost use Rattle.layers.specs.Layer.{Laid};
ghost use Rattle.layers.specs.Rationed.{rationed, quota_of, unused, TimeChecked, QuotaTable, QuotaSet};
ghost use Rattle.layers.specs.Soundness.{rationed_sound};
ghost use Rattle.model.specs.Linking.{Asked};

use crate::fault::{absent, passed_on};
use crate::fresh::is_fresh;
use model::cargo::Cargo;
use model::event::Event;
use model::fault::{LinkFault, SettingFault};
use model::links::{LAST_TIME, Links};

// The largest quota of a link.
pub const LARGEST_QUOTA: u32 = 65_535;

// The links below, and what is left of the quota of each.
#[derive(Drop)]
pub struct Quota<L> {
    below: L,
    left: [u32; 128],
}

impl<L> Quota<L> {
    // Lays a layer with the largest quotas over these links.
    pub fn new<C: Cargo>(below: L) -> Self
    where
        L: Links<C>,
        ensures held { (result.below ≡ below) × (result.left ≡ replicate 128 65535) }
        ensures meaning { Laid (Some 65535) (L.Links.meaning below) (rationed (L.Links.meaning result.below) result.left) }
    {
        Quota {
            below,
            left: [LARGEST_QUOTA; 128],
        }
    }

    // The links below, as they stand.
    pub fn into_below(self) -> L
        ensures { result ≡ self.below }
    {
        self.below
    }

    // Sets the quota of a fresh link, in place of the one before.
    pub fn set<C: Cargo>(&mut self, link: usize, quota: u32) -> Result<(), SettingFault>
    where
        L: Links<C>,
        ensures below { self.new.below ≡ self.old.below }
        ensures table { QuotaTable (L.Links.meaning self.old.below) self.old.left link quota result self.new.left }
        ensures meaning { QuotaSet (L.Links.meaning self.old.below) self.old.left link quota result (rationed (L.Links.meaning self.new.below) self.new.left) }
    {
        let fresh = is_fresh(&self.below, link).map_err(absent)?;
        if !fresh || !(1..=LARGEST_QUOTA).contains(&quota) {
            return Err(SettingFault::Unsuitable);
        }
        self.left[link] = quota;
        Ok(())
    }

    // The quota of a link: what is left of it, and what waits.
    fn quota<C: Cargo>(&self, link: usize) -> Result<u32, LinkFault>
    where
        L: Links<C>,
        ensures { Asked (L.Links.meaning self.now.below) link (quota_of (L.Links.meaning self.now.below) self.now.left link) result }
    {
        let used = self.below.waiting(link)?;
        Ok(self.left[link].saturating_add(used).clamp(1, LARGEST_QUOTA))
    }

    // How many more events the quota of a link lets wait.
    fn unused<C: Cargo>(&self, link: usize) -> Result<u32, LinkFault>
    where
        L: Links<C>,
        ensures { Asked (L.Links.meaning self.now.below) link (unused (L.Links.meaning self.now.below) self.now.left link) result }
    {
        let quota = self.quota(link)?;
        let waiting = self.below.waiting(link)?;
        Ok(quota - waiting)
    }

    // Refuses a time that is past the last, or from which an event would arrive below the floor.
    fn check_time<C: Cargo>(&self, link: usize, time: u32) -> Result<(), LinkFault>
    where
        L: Links<C>,
        ensures { TimeChecked (L.Links.meaning self.now.below) link time result }
    {
        let floor = self.below.floor(link)?;
        if time > LAST_TIME {
            return Err(LinkFault::PastLastTime);
        }
        if time + self.below.delay(link)? < floor {
            return Err(LinkFault::BelowFloor);
        }
        Ok(())
    }
}

impl<C: Cargo, L: Links<C>> Links<C> for Quota<L> {
    ghost meaning = { λ s. rationed (L.Links.meaning s.below) s.left };

    ghost sound = { λ s. rationed_sound (L.Links.meaning s.below) s.left (L.Links.sound s.below) };

    fn put(&mut self, link: usize, time: u32, cargo: C) -> Result<(), LinkFault> {
        self.check_time(link, time)?;
        if self.unused(link)? == 0 {
            return Err(LinkFault::Full(0));
        }
        self.below.put(link, time, cargo).map_err(passed_on)?;
        self.left[link] = self.left[link].saturating_sub(1);
        Ok(())
    }

    fn null(&mut self, link: usize, time: u32) -> Result<(), LinkFault> {
        self.below.null(link, time)
    }

    fn first(&self, link: usize) -> Result<Option<Event<C>>, LinkFault> {
        self.below.first(link)
    }

    fn take(&mut self, link: usize) -> Result<Event<C>, LinkFault> {
        let event = self.below.take(link)?;
        self.left[link] = self.left[link].saturating_add(1);
        Ok(event)
    }

    fn floor(&self, link: usize) -> Result<u32, LinkFault> {
        self.below.floor(link)
    }

    fn delay(&self, link: usize) -> Result<u32, LinkFault> {
        self.below.delay(link)
    }

    fn waiting(&self, link: usize) -> Result<u32, LinkFault> {
        self.below.waiting(link)
    }

    fn free(&self, link: usize) -> Result<u32, LinkFault> {
        let free = self.below.free(link)?;
        let unused = self.unused(link)?;
        Ok(free.min(unused))
    }

    fn capacity(&self, link: usize) -> Result<u32, LinkFault> {
        let capacity = self.below.capacity(link)?;
        let quota = self.quota(link)?;
        Ok(quota.min(capacity))
    }
}
