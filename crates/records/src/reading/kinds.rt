//! The kinds of record: each takes its fields behind the word from the left.
ghost use Rattle.std.specs.Prelude.{◌≡◌};
ghost use Rattle.records.specs.Kinds.{net_of, signal_record, switch_record, exit_record, link_of};

use super::fields::Fields;
use super::words::{Family, Store};
use exit::Exit;
use model::link::Link;
use model::reading::RecordFault;
use packet::switch::Switch;
use road::signal::Signal;
use road::signal::settings::Settings;

// What a net record says: the family, the horizon, the places for each link, and the store.
#[derive(Clone, Copy, PartialEq, Eq, Debug)]
pub struct Net {
    pub family: Family,
    pub horizon: u32,
    pub places: u32,
    pub store: Store,
}

// What a link record says: the link, and its quota if that is to be set.
#[derive(Clone, Copy, PartialEq, Eq, Debug)]
pub struct PlannedLink {
    pub link: Link,
    pub quota: Option<u32>,
}

pub fn read_net(fields: &Fields) -> Result<Net, RecordFault>
    ensures { result ≡ net_of fields.now }
{
    let family = fields.number().word::<Family>()?;
    let horizon = fields.cell(3).in_range(1, 1_000_000)?;
    let places = fields.cell(4).in_range(4, 1_024)?;
    let store = fields.cell(5).word::<Store>()?;
    fields.unused_from(6)?;
    Ok(Net {
        family,
        horizon,
        places,
        store,
    })
}

pub fn read_signal(next: usize, fields: &Fields) -> Result<Signal, RecordFault>
    ensures { result ≡ signal_record next fields.now }
{
    fields.number().next(next)?;
    let lookahead = fields.cell(3).in_range(1, 10_000)?;
    let cycle = fields.cell(4).in_range(1, 10_000)?;
    let green = fields.cell(5).in_range(1, cycle)?;
    let offset = fields.cell(6).in_range(0, cycle.saturating_sub(1))?;
    let headway = fields.cell(7).in_range(1, 10_000)?;
    let crossing = fields.cell(8).in_range(1, 10_000)?;
    fields.unused_from(9)?;
    let settings = Settings {
        lookahead,
        cycle,
        green,
        offset,
        headway,
        crossing,
    };
    Ok(fields.cell(3).made(Signal::new(settings))?)
}

pub fn read_switch(next: usize, fields: &Fields) -> Result<Switch, RecordFault>
    ensures { result ≡ switch_record next fields.now }
{
    fields.number().next(next)?;
    let lookahead = fields.cell(3).in_range(1, 10_000)?;
    let service = fields.cell(4).in_range(1, 10_000)?;
    fields.unused_from(5)?;
    Ok(fields.cell(3).made(Switch::new(lookahead, service))?)
}

pub fn read_exit(next: usize, fields: &Fields) -> Result<Exit, RecordFault>
    ensures { result ≡ exit_record next fields.now }
{
    fields.number().next(next)?;
    let lookahead = fields.cell(3).in_range(1, 10_000)?;
    fields.unused_from(4)?;
    Ok(fields.cell(3).made(Exit::new(lookahead))?)
}

// A link record of a plan with so many processes.
pub fn read_link(next: usize, processes: usize, fields: &Fields) -> Result<PlannedLink, RecordFault>
    ensures { result ≡ link_of next processes fields.now }
{
    fields.number().next(next)?;
    let from = fields.cell(3).source(processes)?;
    let to = fields.cell(4).process(processes)?;
    let delay = fields.cell(5).in_range(0, 10_000)?;
    let quota = fields.cell(6).quota()?;
    fields.unused_from(7)?;
    Ok(PlannedLink {
        link: Link { from, to, delay },
        quota,
    })
}
