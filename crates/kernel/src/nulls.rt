//! The null stage.
ghost use Rattle.std.specs.Prelude.{◌≡◌, ◌+◌, ◌<◌, ◌≤◌, if◌then◌else◌, [], ◌∷◌, length};
ghost use Rattle.simulation.specs.Step.{Nulls};
ghost use Rattle.kernel.specs.Places.{Below};

use crate::asking::Present;
use model::cargo::Cargo;
use model::links::Links;

// A null at a time on a link, if its floor is below the null's arrival; answers whether one was put.
pub(crate) fn tell<C: Cargo, L: Links<C>>(links: &mut L, link: usize, time: u32) -> bool
    requires there { link < (L.Links.meaning links.old).count }
    requires soon { time ≤ 1000000000 }
    ensures count { (L.Links.meaning links.new).count ≡ (L.Links.meaning links.old).count }
    ensures nulls { Nulls time (link ∷ []) (L.Links.meaning links.old) (if result then 1 else 0) (L.Links.meaning links.new) }
{
    let there = Present::new(links, link);
    if there.floor() >= time + there.delay() {
        return false;
    }
    links.null(link, time).unwrap();
    true
}

// A null at a time on each of these links whose floor is below its arrival; answers how many.
pub(crate) fn send_nulls<C: Cargo, L: Links<C>>(links: &mut L, outs: &[usize], time: u32) -> u32
    requires below { Below (L.Links.meaning links.old).count outs.now }
    requires soon { time ≤ 1000000000 }
    requires few { length outs.now ≤ 128 }
    ensures count { (L.Links.meaning links.new).count ≡ (L.Links.meaning links.old).count }
    ensures nulls { Nulls time outs.now (L.Links.meaning links.old) result (L.Links.meaning links.new) }
{
    let mut sent = 0;
    for port in 0..outs.len() {
        if tell(links, outs[port], time) {
            sent += 1;
        }
    }
    sent
}
