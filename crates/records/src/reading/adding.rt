//! What one record adds to the lists.
ghost use Rattle.std.specs.Prelude.{◌≡◌};
ghost use Rattle.records.specs.Filling.{held, rooms};
ghost use Rattle.records.specs.Adding.{Taken, process_added, link_added, event_added};

use super::families::ProcessKind;
use super::kinds::PlannedLink;
use super::lists::{Lists, Starts};
use super::lookups::{former_time, has_room, past};
use model::opening::Opening;
use model::reading::RecordFault;

impl<C: Copy, P: ProcessKind<C>> Lists<C, P> {
    // Adds a process, if there is room for it.
    pub(super) fn add_process(
        &mut self,
        starts: Starts,
        line: u32,
        process: P,
    ) -> Result<(), RecordFault>
        ensures items { ◌≡◌ {A = Taken P C} (held self.new, result) (process_added (rooms self.old) starts line process (held self.old)) }
        ensures room { rooms self.new ≡ rooms self.old }
    {
        let few = past(&self.processes, starts.processes).len() < 64;
        if few && self.processes.len() < self.processes.capacity() {
            self.processes.push_reserved(process);
            Ok(())
        } else {
            Err(RecordFault::TooMany(line))
        }
    }

    // Adds a link, if there is room for it.
    pub(super) fn add_link(
        &mut self,
        starts: Starts,
        line: u32,
        planned: PlannedLink,
    ) -> Result<(), RecordFault>
        ensures items { ◌≡◌ {A = Taken P C} (held self.new, result) (link_added (rooms self.old) starts line planned (held self.old)) }
        ensures room { rooms self.new ≡ rooms self.old }
    {
        let fits = has_room(past(&self.links, starts.links), starts.places, planned.link);
        if fits && self.links.len() < self.links.capacity() {
            self.links.push_reserved(planned);
            Ok(())
        } else {
            Err(RecordFault::TooMany(line))
        }
    }

    // Adds an event, if there is room for it and it is not before the former one of its link.
    pub(super) fn add_event(
        &mut self,
        starts: Starts,
        line: u32,
        opening: Opening<C>,
    ) -> Result<(), RecordFault>
        ensures items { ◌≡◌ {A = Taken P C} (held self.new, result) (event_added (rooms self.old) starts line opening (held self.old)) }
        ensures room { rooms self.new ≡ rooms self.old }
    {
        if self.openings.len() >= self.openings.capacity() {
            return Err(RecordFault::TooMany(line));
        }
        if opening.time < former_time(past(&self.openings, starts.openings), opening.link) {
            return Err(RecordFault::BackInTime(line));
        }
        self.openings.push_reserved(opening);
        Ok(())
    }
}
