//! Whether a sending keeps to its promises, and how it goes out.
ghost use Rattle.std.specs.Prelude.{◌≡◌, ◌<◌, Some};
ghost use Rattle.model.specs.Lists.{oldest};
ghost use Rattle.kernel.specs.Judging.{judged, MayGo, Passed};

use crate::asking::Present;
use crate::ports::Ports;
use model::cargo::Cargo;
use model::event::Event;
use model::links::{LAST_TIME, Links};
use model::refusal::{Breach, Cause};
use model::sending::Sending;

// What goes out on a link.
#[derive(Clone, Copy)]
pub(crate) struct Going<C> {
    pub(crate) link: usize,
    pub(crate) time: u32,
    pub(crate) cargo: C,
}

impl<C: Cargo, L: Links<C>> Ports<'_, C, L> {
    // What becomes of a sending of a process that may not be before the earliest time.
    pub(crate) fn judge(
        &self,
        process: usize,
        earliest: u32,
        sending: Option<Sending<C>>,
    ) -> Result<Option<Going<C>>, Breach>
        ensures { result ≡ judged (L.Links.meaning self.now.links.now) process self.now.list.now earliest sending }
    {
        let Some(Sending { port, time, cargo }) = sending else {
            return Ok(None);
        };
        if port >= self.list.len() {
            return Ok(None);
        }
        let link = self.list[port];
        let there = Present::new(self.links, link);
        let cause = if time < earliest {
            Cause::Early
        } else if time > LAST_TIME {
            Cause::TooFar
        } else if time + there.delay() < there.floor() {
            Cause::Overtaking
        } else {
            return Ok(Some(Going { link, time, cargo }));
        };
        Err(Breach {
            process,
            link,
            time,
            cause,
        })
    }
}

// Takes the first event of a link, and puts what goes out.
pub(crate) fn pass_on<C: Cargo, L: Links<C>>(
    links: &mut L,
    link: usize,
    event: Event<C>,
    going: Option<Going<C>>,
)
    requires there { link < (L.Links.meaning links.old).count }
    requires first { oldest ((L.Links.meaning links.old).waiting link) ≡ Some event }
    requires bears { MayGo (L.Links.meaning links.old) going }
    ensures count { (L.Links.meaning links.new).count ≡ (L.Links.meaning links.old).count }
    ensures passed { Passed (L.Links.meaning links.old) link event going (L.Links.meaning links.new) }
{
    links.take(link).unwrap();
    if let Some(Going { link, time, cargo }) = going {
        links.put(link, time, cargo).unwrap();
    }
}
