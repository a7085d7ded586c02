//! The ports of a plan's processes: its links by rising number.
ghost use Rattle.std.specs.Prelude.{◌≡◌, Bool, length, IfOk, Some, Option};
ghost use Rattle.std.specs.Fn.{FnReturnsAt};
ghost use Rattle.model.specs.declared.link.Link.{Link};
ghost use Rattle.model.specs.Lists.{at, is, numbers_below};
ghost use Rattle.model.specs.Shape.{leaving, out_links, in_links};
ghost use Rattle.model.specs.Made.{shape_of};

use super::Plan;
use crate::link::Link;
use std::alloc::{AllocError, Global};

// Whether a link leads from a process.
fn leaves(link: &Link, process: usize) -> bool
    ensures { result ≡ is process link.now.from }
{
    link.from == Some(process)
}

// How many links lead from a process.
pub fn out_count(links: &[Link], process: usize) -> usize
    ensures { result ≡ length (leaving links.now process) }
{
    links.iter().filter(|link| leaves(link, process)).count()
}

// The numbers of the links that pass, rising.
fn numbers_where<F: Fn(&Link) -> bool>(
    heap: Global,
    links: &[Link],
    passes: F,
) -> Result<Vec<usize>, AllocError>
    requires { F.IsAlwaysCallable passes }
    ensures { (test : Option Link → Bool)
        → ((link : Link) (answer : Bool) → FnReturnsAt F.Fn passes link answer → answer ≡ test (Some link))
        → IfOk result (λ v. v.items ≡ numbers_below (length links.now) (λ k. test (at links.now k))) }
{
    links
        .iter()
        .enumerate()
        .filter(|(_, link)| passes(link))
        .map(|(number, _)| number)
        .collect(heap)
}

impl Plan {
    // The links from a process: its out-ports, by rising link number.
    pub fn out_links(&self, heap: Global, process: usize) -> Result<Vec<usize>, AllocError>
        ensures { IfOk result (λ v. v.items ≡ out_links (shape_of self.now) process) }
    {
        numbers_where(heap, &self.links, |link| leaves(link, process))
    }

    // The links to a process: its in-ports, by rising link number.
    pub fn in_links(&self, heap: Global, process: usize) -> Result<Vec<usize>, AllocError>
        ensures { IfOk result (λ v. v.items ≡ in_links (shape_of self.now) process) }
    {
        numbers_where(heap, &self.links, |link| link.to == process)
    }
}
