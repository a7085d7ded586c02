//! How a plan is made, and what it says.
ghost use Rattle.std.specs.Prelude.{◌≡◌, ◌≤◌, length, Some, nat_le};
ghost use Rattle.model.specs.Lists.{at, each};
ghost use Rattle.model.specs.Shape.{joins, leaving};
ghost use Rattle.model.specs.Made.{Made, shape_of};

use super::Plan;
use super::ports::out_count;
use crate::link::Link;

// Whether a link leads between so many processes, with a delay within its limit.
fn between(link: &Link, processes: usize) -> bool
    ensures { result ≡ joins processes (Some link.now) }
{
    link.from.is_none_or(|process| process < processes)
        && link.to < processes
        && link.delay <= 10_000
}

// Whether all links do.
fn all_between(links: &[Link], processes: usize) -> bool
    ensures { result ≡ each (length links.now) (λ k. joins processes (at links.now k)) }
{
    links.iter().all(|link| between(link, processes))
}

// Whether each of so many processes has at most 8 links leading from it.
fn all_few(links: &[Link], processes: usize) -> bool
    ensures { result ≡ each processes (λ p. nat_le (length (leaving links.now p)) 8) }
{
    (0..processes).all(|process| out_count(links, process) <= 8)
}

impl Plan {
    // The plan of these parts, unless they pass a limit.
    pub fn new(horizon: u32, processes: usize, links: Vec<Link>) -> Option<Plan>
        ensures { Made (record { horizon = horizon; processes = processes; links = links.items }) result }
    {
        if !(1..=1_000_000).contains(&horizon) || !(1..=64).contains(&processes) {
            return None;
        }
        if links.len() > 128 || !all_between(&links, processes) || !all_few(&links, processes) {
            return None;
        }
        Some(Plan {
            horizon,
            processes,
            links,
        })
    }

    pub fn horizon(&self) -> u32
        ensures is { result ≡ (shape_of self.now).horizon }
        ensures near { result ≤ 1000000 }
    {
        self.horizon
    }

    // How many processes there are.
    pub fn processes(&self) -> usize
        ensures is { result ≡ (shape_of self.now).processes }
        ensures few { result ≤ 64 }
    {
        self.processes
    }

    // How many links there are.
    pub fn link_count(&self) -> usize
        ensures { result ≡ length (shape_of self.now).links }
    {
        self.links.len()
    }

    // The link of a number, if there is one.
    pub fn link(&self, number: usize) -> Option<Link>
        ensures { result ≡ at (shape_of self.now).links number }
    {
        self.links.get(number).copied()
    }
}
