//! A whole plan.
ghost use Rattle.std.specs.Prelude.{◌≡◌, ◌≤◌, length, vec_capacity};
ghost use Rattle.text.specs.Fields.{cut_line};
ghost use Rattle.text.specs.Lines.{lines_of};
ghost use Rattle.records.specs.Filling.{held, rooms};
ghost use Rattle.records.specs.PlanText.{FamilyRead, first_cut, family_taken, own, own_room, with_links, room_for, PlanRead, all_held, all_rooms, plan_of};

use super::families::ProcessKind;
use super::fields::Fields;
use super::kinds::{Net, PlannedLink, read_net};
use super::lists::{FamilyLists, Lists, PlanLists, Starts};
use super::words::{Family, Word};
use model::reading::{PlanFault, RecordFault};
use std::mem::replace;
use text::lines::split_line;

// The net record, on the first line.
fn read_first(bytes: &[u8]) -> Result<Net, RecordFault>
    requires { length bytes.now ≤ 65536 }
    ensures { result ≡ first_cut (cut_line bytes.now) }
{
    let fields = Fields::of_line(1, bytes)?;
    match fields.kind().word::<Word>()? {
        Word::Net => read_net(&fields),
        _ => Err(fields.misplaced()),
    }
}

impl<C: Copy, P: ProcessKind<C>> Lists<C, P> {
    // The records behind the net record of the family.
    fn take_plan(&mut self, net: Net, text: &[u8]) -> Result<Net, PlanFault>
        requires { length text.now ≤ 65536 }
        ensures items { ◌≡◌ {A = FamilyRead P C} (held self.new, result) (family_taken P.ProcessKind.processed P.ProcessKind.loaded (rooms self.old) net (lines_of text.now) (held self.old)) }
        ensures room { rooms self.new ≡ rooms self.old }
    {
        let starts = Starts {
            processes: self.processes.len(),
            links: self.links.len(),
            openings: self.openings.len(),
            places: net.places,
        };
        self.take_lines(starts, text)?;
        Ok(net)
    }
}

impl<C: Copy, P: ProcessKind<C>> FamilyLists<C, P> {
    // Adds to these lists and to the links what the records behind the net record give.
    fn fill(
        &mut self,
        links: &mut Vec<PlannedLink>,
        net: Net,
        text: &[u8],
    ) -> Result<Net, PlanFault>
        requires { length text.now ≤ 65536 }
        ensures items { ◌≡◌ {A = FamilyRead P C} (with_links (own self.new) links.new.items, result) (family_taken P.ProcessKind.processed P.ProcessKind.loaded (room_for (own_room self.old) (vec_capacity links.old)) net (lines_of text.now) (with_links (own self.old) links.old.items)) }
        ensures room { own_room self.new ≡ own_room self.old }
        ensures link_room { vec_capacity links.new ≡ vec_capacity links.old }
    {
        let heap = *links.allocator();
        let mut lists = Lists {
            processes: replace(&mut self.processes, Vec::new(heap)),
            links: replace(links, Vec::new(heap)),
            openings: replace(&mut self.openings, Vec::new(heap)),
        };
        let answer = lists.take_plan(net, text);
        self.processes = lists.processes;
        *links = lists.links;
        self.openings = lists.openings;
        answer
    }
}

// Reads a plan's text into the caller's lists, and answers what its net record says. The family that this names decides
// which are filled. Where the text is refused, what the records before the refused one gave stays in them. Their room
// stays as it was.
pub fn read_plan(text: &[u8], lists: &mut PlanLists) -> Result<Net, PlanFault>
    ensures read { ◌≡◌ {A = PlanRead} (all_held lists.new, result) (plan_of (all_rooms lists.old) text.now (all_held lists.old)) }
    ensures rooms { all_rooms lists.new ≡ all_rooms lists.old }
{
    if text.len() > 65_536 {
        return Err(PlanFault::TooLong);
    }
    let (first, rest) = split_line(text).ok_or(PlanFault::NoProcess)?;
    let net = read_first(first)?;
    match net.family {
        Family::Road => lists.roads.fill(&mut lists.links, net, rest),
        Family::Switch => lists.switches.fill(&mut lists.links, net, rest),
    }
}
