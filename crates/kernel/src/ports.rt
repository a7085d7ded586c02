//! The links of a process's ports.
ghost use Rattle.std.specs.Prelude.{◌≡◌};
ghost use Rattle.kernel.specs.Places.{Below};

use model::cargo::Cargo;
use model::links::Links;
use std::marker::PhantomData;

// The links by port, each of which is there.
#[derive(Drop)]
pub(crate) struct Ports<'a, C: Cargo, L: Links<C>> {
    pub(crate) links: &'a L,
    pub(crate) list: &'a [usize],
    cargo: PhantomData<C>,
    ghost below: { Below (L.Links.meaning links.now).count list.now },
}

impl<'a, C: Cargo, L: Links<C>> Ports<'a, C, L> {
    pub(crate) fn new(links: &'a L, list: &'a [usize]) -> Ports<'a, C, L>
        requires { Below (L.Links.meaning links.now).count list.now }
        ensures links { result.links.now ≡ links.now }
        ensures list { result.list.now ≡ list.now }
    {
        Ports {
            links,
            list,
            cargo: PhantomData,
        }
    }
}
