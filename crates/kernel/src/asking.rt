//! What links that are there answer.
ghost use Rattle.std.specs.Prelude.{◌≡◌, ◌<◌, ◌≤◌, ◌==◌};
ghost use Rattle.model.specs.Lists.{oldest};

use model::cargo::Cargo;
use model::event::Event;
use model::links::Links;
use std::marker::PhantomData;

// Whether there are exactly so many links: they count from 0, so the last is there and the next is not.
pub(crate) fn as_many<C: Cargo, L: Links<C>>(links: &L, count: usize) -> bool
    ensures { result ≡ ((L.Links.meaning links.now).count == count) }
{
    if count > 0 && links.floor(count - 1).is_err() {
        return false;
    }
    links.floor(count).is_err()
}

// A link that is there: no question about it is refused.
#[derive(Drop)]
pub(crate) struct Present<'a, C: Cargo, L: Links<C>> {
    pub(crate) links: &'a L,
    pub(crate) link: usize,
    cargo: PhantomData<C>,
    ghost there: { link < (L.Links.meaning links.now).count },
}

impl<'a, C: Cargo, L: Links<C>> Present<'a, C, L> {
    pub(crate) fn new(links: &'a L, link: usize) -> Present<'a, C, L>
        requires { link < (L.Links.meaning links.now).count }
        ensures links { result.links.now ≡ links.now }
        ensures link { result.link ≡ link }
    {
        Present {
            links,
            link,
            cargo: PhantomData,
        }
    }

    pub(crate) fn floor(&self) -> u32
        ensures { result ≡ (L.Links.meaning self.now.links.now).floor self.now.link }
    {
        self.links.floor(self.link).unwrap()
    }

    // The delay, with its limit, so that sums with it fit.
    pub(crate) fn delay(&self) -> u32
        ensures is { result ≡ (L.Links.meaning self.now.links.now).delay self.now.link }
        ensures near { result ≤ 1000000 }
    {
        self.links.delay(self.link).unwrap()
    }

    pub(crate) fn free(&self) -> u32
        ensures { result ≡ (L.Links.meaning self.now.links.now).free self.now.link }
    {
        self.links.free(self.link).unwrap()
    }

    pub(crate) fn first(&self) -> Option<Event<C>>
        ensures { result ≡ oldest ((L.Links.meaning self.now.links.now).waiting self.now.link) }
    {
        self.links.first(self.link).unwrap()
    }
}
