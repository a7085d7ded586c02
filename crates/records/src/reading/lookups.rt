//! What earlier records gave.
ghost use Rattle.std.specs.Prelude.{◌≡◌, drop};
ghost use Rattle.model.specs.Lists.{is};
ghost use Rattle.records.specs.Adding.{former, from_same, link_fits};

use super::kinds::PlannedLink;
use model::link::Link;
use model::opening::Opening;

// What a list holds from a place on.
pub fn past<T>(items: &[T], start: usize) -> &[T]
    ensures { result.now ≡ drop start items.now }
{
    items.get(start..).unwrap_or(&[])
}

// The time of the last of these events on a link; 0 if there is none.
pub fn former_time<C: Copy>(openings: &[Opening<C>], link: usize) -> u32
    ensures { result ≡ former link openings.now }
{
    openings.iter().fold(
        0,
        |time, opening| if opening.link == link {
            opening.time
        } else {
            time
        },
    )
}

// Whether a link leads from a process.
fn leaves(planned: &PlannedLink, process: usize) -> bool
    ensures { result ≡ is process planned.now.link.from }
{
    planned.link.from == Some(process)
}

// How many of these links lead from the same process; from outside any number may.
fn same_source(links: &[PlannedLink], from: Option<usize>) -> usize
    ensures { result ≡ from_same links.now from }
{
    from.map_or(
        0,
        |process| links
            .iter()
            .filter(|planned| leaves(planned, process))
            .count(),
    )
}

// Whether a plan with these links and so many places for each has room for one link more.
pub fn has_room(links: &[PlannedLink], places: u32, link: Link) -> bool
    ensures { result ≡ link_fits places links.now link }
{
    let count = links.len();
    let ports = same_source(links, link.from) < 8;
    count < 128 && ports && (count as u64 + 1) * u64::from(places) <= 4_096
}
