//! One record: read and added.
ghost use Rattle.std.specs.Prelude.{◌≡◌};
ghost use Rattle.records.specs.Filling.{held, rooms};
ghost use Rattle.records.specs.Adding.{Taken, process_taken, link_taken, event_taken, word_taken, record_taken};

use super::families::{ProcessKind, read_event};
use super::fields::Fields;
use super::kinds::read_link;
use super::lists::{Lists, Starts};
use super::lookups::past;
use super::words::Word;
use model::reading::RecordFault;

impl<C: Copy, P: ProcessKind<C>> Lists<C, P> {
    // A process record: before any link and event.
    fn take_process(
        &mut self,
        starts: Starts,
        word: Word,
        fields: &Fields,
    ) -> Result<(), RecordFault>
        ensures items { ◌≡◌ {A = Taken P C} (held self.new, result) (process_taken (rooms self.old) starts P.ProcessKind.processed word fields.now (held self.old)) }
        ensures room { rooms self.new ≡ rooms self.old }
    {
        let no_link = past(&self.links, starts.links).is_empty();
        if !no_link || !past(&self.openings, starts.openings).is_empty() {
            return Err(fields.misplaced());
        }
        let next = past(&self.processes, starts.processes).len();
        let process = P::read_process(next, word, fields)?;
        self.add_process(starts, fields.line, process)
    }

    // A link record: before any event.
    fn take_link(&mut self, starts: Starts, fields: &Fields) -> Result<(), RecordFault>
        ensures items { ◌≡◌ {A = Taken P C} (held self.new, result) (link_taken (rooms self.old) starts fields.now (held self.old)) }
        ensures room { rooms self.new ≡ rooms self.old }
    {
        if !past(&self.openings, starts.openings).is_empty() {
            return Err(fields.misplaced());
        }
        let next = past(&self.links, starts.links).len();
        let processes = past(&self.processes, starts.processes).len();
        let planned = read_link(next, processes, fields)?;
        self.add_link(starts, fields.line, planned)
    }

    // An event record.
    fn take_event(&mut self, starts: Starts, fields: &Fields) -> Result<(), RecordFault>
        ensures items { ◌≡◌ {A = Taken P C} (held self.new, result) (event_taken (rooms self.old) starts P.ProcessKind.loaded fields.now (held self.old)) }
        ensures room { rooms self.new ≡ rooms self.old }
    {
        let opening = read_event::<C, P>(past(&self.links, starts.links), fields)?;
        self.add_event(starts, fields.line, opening)
    }

    // A record of any kind behind the net record.
    fn take_word(&mut self, starts: Starts, word: Word, fields: &Fields) -> Result<(), RecordFault>
        ensures items { ◌≡◌ {A = Taken P C} (held self.new, result) (word_taken P.ProcessKind.processed P.ProcessKind.loaded (rooms self.old) starts word fields.now (held self.old)) }
        ensures room { rooms self.new ≡ rooms self.old }
    {
        match word {
            Word::Net => Err(fields.misplaced()),
            Word::Link => self.take_link(starts, fields),
            Word::Event => self.take_event(starts, fields),
            Word::Signal | Word::Switch | Word::Exit => self.take_process(starts, word, fields),
        }
    }

    // A record by its word.
    pub(super) fn take_record(&mut self, starts: Starts, fields: &Fields) -> Result<(), RecordFault>
        ensures items { ◌≡◌ {A = Taken P C} (held self.new, result) (record_taken P.ProcessKind.processed P.ProcessKind.loaded (rooms self.old) starts fields.now (held self.old)) }
        ensures room { rooms self.new ≡ rooms self.old }
    {
        let word = fields.kind().word::<Word>()?;
        self.take_word(starts, word, fields)
    }
}
