//! The store, over slots that the caller lends.
ghost use Rattle.std.specs.Prelude.{◌≡◌, ℕ, ◌*◌, ◌<◌, ◌≤◌, length};
ghost use Rattle.ring.specs.Shape.{Within, row};

use crate::lane::Lane;
use model::event::Event;
use slots::MOST_LINKS;

pub mod calls;

// Each link has `size` slots to itself, one link's after another's.
#[derive(Drop)]
pub struct Ring<'a, C> {
    slots: &'a mut [Event<C>],
    links: usize,
    size: u32,
    lanes: [Lane; MOST_LINKS],
    ghost few: { links ≤ 128 },
    ghost wide: { size ≤ 65535 },
    ghost enough: { links * size ≤ length slots.now },
    ghost rows: { length lanes ≡ 128 },
    ghost within: { (k : ℕ) → k < links → Within size (row lanes k) },
}
