//! The calls of the store.
ghost use Rattle.std.specs.Prelude.{◌≡◌, ◌<◌, ◌≤◌, length, replicate};
ghost use Rattle.ring.specs.Shape.{fresh, row, around, spot};
ghost use Rattle.ring.specs.Meaning.{meaning_of, opened, Looked, LookedAt};
ghost use Rattle.ring.specs.Soundness.{is_sound};

use super::Ring;
use crate::lane::Lane;
use model::cargo::Cargo;
use model::event::Event;
use model::fault::LinkFault;
use model::links::{LAST_TIME, Links};
use slots::MOST_LINKS;

// The place `after` places after the head, round the end of a part of so many slots.
fn place(size: u32, head: u32, after: u32) -> u32
    requires inside { head < size }
    requires within { after ≤ size }
    requires wide { size ≤ 65535 }
    ensures { result ≡ around size head after }
{
    let straight = head + after;
    if straight < size {
        straight
    } else {
        straight - size
    }
}

// Lanes on which nothing was put.
fn fresh_lanes() -> [Lane; MOST_LINKS]
    ensures { result ≡ replicate 128 fresh }
{
    [Lane::default(); MOST_LINKS]
}

impl<'a, C: Cargo> Ring<'a, C> {
    // Shares the slots out evenly among the links, and uses no slot that is left over.
    // Where the numbers are out of range, there are no links.
    pub fn new(slots: &'a mut [Event<C>], links: usize) -> Self
        ensures { meaning_of result ≡ opened links (length slots.old) }
    {
        let lanes = fresh_lanes();
        if !slots::suits(links, slots.len()) {
            return Ring {
                slots,
                links: 0,
                size: 0,
                lanes,
            };
        }
        let size = (slots.len() / links) as u32;
        Ring {
            slots,
            links,
            size,
            lanes,
        }
    }

    // The lane of a link.
    fn lane(&self, link: usize) -> Result<Lane, LinkFault>
        ensures { Looked self.now link result }
    {
        if link >= self.links {
            return Err(LinkFault::NoSuchLink);
        }
        Ok(self.lanes[link])
    }

    // The lane of a link on which something may be put at this time.
    fn lane_at(&self, link: usize, time: u32) -> Result<Lane, LinkFault>
        ensures { LookedAt self.now link time result }
    {
        let lane = self.lane(link)?;
        if time > LAST_TIME {
            return Err(LinkFault::PastLastTime);
        }
        if time < lane.floor {
            return Err(LinkFault::BelowFloor);
        }
        Ok(lane)
    }

    // The slot that lies `after` places after the head of a link.
    fn slot(&self, link: usize, after: u32) -> usize
        requires there { link < self.now.links }
        requires within { after < self.now.size }
        ensures is { result ≡ spot self.now.size link (row self.now.lanes link).head after }
        ensures inside { result < length self.now.slots.now }
    {
        link * self.size as usize + place(self.size, self.lanes[link].head, after) as usize
    }
}

impl<'a, C: Cargo> Links<C> for Ring<'a, C> {
    ghost meaning = { λ s. meaning_of s };

    ghost sound = { λ s. is_sound s };

    fn put(&mut self, link: usize, time: u32, cargo: C) -> Result<(), LinkFault> {
        let lane = self.lane_at(link, time)?;
        if lane.len == self.size {
            return Err(LinkFault::Full(0));
        }
        let at = self.slot(link, lane.len);
        self.slots[at] = Event { time, cargo };
        self.lanes[link] = Lane {
            len: lane.len + 1,
            floor: time,
            ..lane
        };
        Ok(())
    }

    fn null(&mut self, link: usize, time: u32) -> Result<(), LinkFault> {
        self.lane_at(link, time)?;
        self.lanes[link].floor = time;
        Ok(())
    }

    fn first(&self, link: usize) -> Result<Option<Event<C>>, LinkFault> {
        let lane = self.lane(link)?;
        if lane.len == 0 {
            return Ok(None);
        }
        let at = self.slot(link, 0);
        Ok(Some(self.slots[at]))
    }

    fn take(&mut self, link: usize) -> Result<Event<C>, LinkFault> {
        let event = self.first(link)?.ok_or(LinkFault::NothingWaits)?;
        let lane = self.lanes[link];
        let head = place(self.size, lane.head, 1);
        self.lanes[link] = Lane {
            head,
            len: lane.len - 1,
            ..lane
        };
        Ok(event)
    }

    fn floor(&self, link: usize) -> Result<u32, LinkFault> {
        Ok(self.lane(link)?.floor)
    }

    fn delay(&self, link: usize) -> Result<u32, LinkFault> {
        self.lane(link)?;
        Ok(0)
    }

    fn waiting(&self, link: usize) -> Result<u32, LinkFault> {
        Ok(self.lane(link)?.len)
    }

    fn free(&self, link: usize) -> Result<u32, LinkFault> {
        Ok(self.size - self.lane(link)?.len)
    }

    fn capacity(&self, link: usize) -> Result<u32, LinkFault> {
        self.lane(link)?;
        Ok(self.size)
    }
}
