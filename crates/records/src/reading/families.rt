//! What differs between the families: their nodes, and their cargo.
ghost use Rattle.std.specs.Prelude.{◌≡◌, ℕ, Bool, Result as Reading};
ghost use Rattle.model.specs.declared.reading.RecordFault.{RecordFault as Fault};
ghost use Rattle.records.specs.declared.reading.words.Word.{Word as Named};
ghost use Rattle.records.specs.Rows.{Row};
ghost use Rattle.records.specs.Kinds.{signal_record, switch_record};
ghost use Rattle.records.specs.Families.{is_signal, is_switch, process_of, road_cargo, switch_cargo, event_of};

use super::fields::Fields;
use super::kinds::{PlannedLink, read_exit, read_signal, read_switch};
use super::words::Word;
use exit::kind::Kind;
use model::opening::Opening;
use model::reading::RecordFault;
use packet::frame::Frame;
use packet::switch::Switch;
use road::signal::Signal;
use road::vehicle::Vehicle;

// The processes of a family, and the cargo of its events, as records write them.
pub trait ProcessKind<C>: Copy {
    ghost processed: { ℕ → Named → Row → Reading Self Fault };

    ghost loaded: { Row → Reading C Fault };

    // The process of a record with this word; of the other family's word there is none.
    fn read_process(next: usize, word: Word, fields: &Fields) -> Result<Self, RecordFault>
        ensures { result ≡ processed next word fields.now };

    // The cargo of an event, in fields 4 and 5.
    fn read_cargo(fields: &Fields) -> Result<C, RecordFault>
        ensures { result ≡ loaded fields.now };
}

// The nodes of a family, which have a word of their own, and the cargo that they pass on.
pub trait Node<C>: Copy {
    ghost named: { Named → Bool };

    ghost recorded: { ℕ → Row → Reading Self Fault };

    ghost carried: { Row → Reading C Fault };

    // Whether this is the nodes' word.
    fn is_named(word: Word) -> bool
        ensures { result ≡ named word };

    // The node of a record with that word.
    fn read_node(next: usize, fields: &Fields) -> Result<Self, RecordFault>
        ensures { result ≡ recorded next fields.now };

    // The cargo of an event, in fields 4 and 5.
    fn read_carried(fields: &Fields) -> Result<C, RecordFault>
        ensures { result ≡ carried fields.now };
}

impl<C, J: Node<C>> ProcessKind<C> for Kind<J> {
    ghost processed = { process_of J.named J.recorded };

    ghost loaded = { J.carried };

    fn read_process(next: usize, word: Word, fields: &Fields) -> Result<Kind<J>, RecordFault> {
        match word {
            Word::Exit => Ok(Kind::Exit(read_exit(next, fields)?)),
            _ if J::is_named(word) => Ok(Kind::Node(J::read_node(next, fields)?)),
            _ => Err(fields.misplaced()),
        }
    }

    fn read_cargo(fields: &Fields) -> Result<C, RecordFault> {
        J::read_carried(fields)
    }
}

impl Node<Vehicle> for Signal {
    ghost named = { is_signal };

    ghost recorded = { signal_record };

    ghost carried = { road_cargo };

    fn is_named(word: Word) -> bool {
        word == Word::Signal
    }

    fn read_node(next: usize, fields: &Fields) -> Result<Signal, RecordFault> {
        read_signal(next, fields)
    }

    fn read_carried(fields: &Fields) -> Result<Vehicle, RecordFault> {
        let class = fields.cell(4).in_range(0, 3)?;
        let route = fields.cell(5).in_range(0, 65_535)?;
        Ok(fields.cell(4).made(Vehicle::new(class, route))?)
    }
}

impl Node<Frame> for Switch {
    ghost named = { is_switch };

    ghost recorded = { switch_record };

    ghost carried = { switch_cargo };

    fn is_named(word: Word) -> bool {
        word == Word::Switch
    }

    fn read_node(next: usize, fields: &Fields) -> Result<Switch, RecordFault> {
        read_switch(next, fields)
    }

    fn read_carried(fields: &Fields) -> Result<Frame, RecordFault> {
        let destination = fields.cell(4).in_range(0, 255)?;
        let length = fields.cell(5).in_range(1, 9_000)?;
        Ok(fields.cell(4).made(Frame::new(destination, length))?)
    }
}

// An event record of a plan with these links.
pub fn read_event<C: Copy, P: ProcessKind<C>>(
    links: &[PlannedLink],
    fields: &Fields,
) -> Result<Opening<C>, RecordFault>
    ensures { result ≡ event_of P.ProcessKind.loaded links.now fields.now }
{
    let link = fields.number().outside_link(links)?;
    let time = fields.cell(3).in_range(0, 1_000_000)?;
    let cargo = P::read_cargo(fields)?;
    fields.unused_from(6)?;
    Ok(Opening { link, time, cargo })
}
