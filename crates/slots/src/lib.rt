//! What the stores of links share: which numbers of links and slots they take, and slots to begin with.
#![tactic(auto)]

ghost use Rattle.std.specs.Prelude.{◌≡◌, IfOk, replicate};
ghost use Rattle.slots.specs.Empty.{suitable, unread};

use model::event::Event;
use std::alloc::{AllocError, Global};

pub const MOST_LINKS: usize = 128;

pub const MOST_SLOTS: usize = 65_535;

pub const LEAST_SLOTS_A_LINK: usize = 4;

// Whether so many slots can serve so many links.
pub fn suits(links: usize, slots: usize) -> bool
    ensures { result ≡ suitable links slots }
{
    (1..=MOST_LINKS).contains(&links) && (LEAST_SLOTS_A_LINK * links..=MOST_SLOTS).contains(&slots)
}

// So many slots for a store, with an event in each that is never read.
pub fn blank<C: Copy>(heap: Global, count: usize, cargo: C) -> Result<Vec<Event<C>>, AllocError>
    ensures { IfOk result (λ v. v.items ≡ replicate count (unread cargo)) }
{
    (0..count).map(|_| Event { time: 0, cargo }).collect(heap)
}
