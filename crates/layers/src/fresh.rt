//! Whether a link is as it was at the start.
ghost use Rattle.layers.specs.Layer.{Freshness};

use model::cargo::Cargo;
use model::fault::LinkFault;
use model::links::Links;

// Whether nothing waits on a link, and its floor is its delay.
pub fn is_fresh<C: Cargo, L: Links<C>>(links: &L, link: usize) -> Result<bool, LinkFault>
    ensures { Freshness (L.Links.meaning links.now) link result }
{
    Ok(links.waiting(link)? == 0 && links.floor(link)? == links.delay(link)?)
}
