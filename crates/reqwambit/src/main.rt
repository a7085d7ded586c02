//! The program. For now it runs the worked plan and writes its log.
#![tactic(auto)]

mod worked;

use anyhow::{Context, anyhow};
use kernel::run::Run;
use kernel::run::comparing::same_history;
use layers::delay::Delay;
use layers::quota::Quota;
use model::answer::Passed;
use model::links::Links;
use model::numbered::Numbered;
use model::record::Record;
use records::log::line::LONGEST;
use records::log::{HEADING, LogLine};
use ring::store::Ring;
use road::kind::RoadKind;
use road::vehicle::Vehicle;
use std::alloc::Global;
use std::io::Write;

// The log has room for so many records.
const LOG_SIZE: usize = 4_096;

// No more passes than this are made.
const MOST_PASSES: u32 = 1_000_000;

// The worked plan over these links.
fn prepared<L: Links<Vehicle> + Drop>(
    heap: Global,
    links: L,
) -> anyhow::Result<Run<Vehicle, RoadKind, L>> {
    let opening = worked::opening(heap)?;
    Run::prepare(
        heap,
        worked::plan(heap)?,
        worked::processes(heap)?,
        opening.as_slice(),
        links,
        LOG_SIZE,
    )
    .map_err(|_| anyhow!("the run is not prepared"))
}

// Steps the processes from the last to the first, so many times over.
fn backwards<L: Links<Vehicle>>(run: &mut Run<Vehicle, RoadKind, L>, times: u32) {
    for _ in 0..times {
        let _ = run.step(1);
        let _ = run.step(0);
    }
}

// Writes the line of a record that stands at place n of its history.
fn print_line(rt: &HostRuntime, record: Record, n: usize) -> anyhow::Result<()> {
    let line = LogLine::new(record, n).context("a record is outside the limits of a line")?;
    let mut buf = [0; LONGEST];
    let end = line
        .write(&mut buf)
        .map_err(|_| anyhow!("a line is too long"))?;
    rt.stdout().write_all(&buf[..end])?;
    Ok(())
}

// Writes the history of a process, one line a record.
fn print_history(rt: &HostRuntime, log: &[Record], process: usize) -> anyhow::Result<()> {
    for (n, record) in log
        .iter()
        .filter(|record| record.process == process)
        .enumerate()
    {
        print_line(rt, *record, n)?;
    }
    Ok(())
}

// Writes the whole log, line by line: it asks for no memory, so that a run that ended is told whatever is left.
fn print_log(rt: &HostRuntime, log: &[Record]) -> anyhow::Result<()> {
    rt.stdout().write_all(HEADING)?;
    for process in 0..worked::PROCESSES {
        print_history(rt, log, process)?;
    }
    Ok(())
}

// Runs the plan over two stacks of links, the second stepped backwards, and compares the two.
fn compared<S: Links<Vehicle> + Drop, T: Links<Vehicle> + Drop>(
    rt: &HostRuntime,
    first: S,
    second: T,
) -> anyhow::Result<()> {
    let heap = rt.alloc();
    let mut links = Delay::new(Quota::new(first));
    links
        .set(worked::TO_EXIT, worked::DELAY)
        .map_err(|_| anyhow!("the delay is not set"))?;
    let mut other_links = Delay::new(second);
    other_links
        .set(worked::TO_EXIT, worked::DELAY)
        .map_err(|_| anyhow!("the delay is not set"))?;
    let mut run = prepared(heap, links)?;
    let mut other = prepared(heap, other_links)?;
    let Passed { passes, quiet } = run.run(MOST_PASSES);
    backwards(&mut other, 20);
    print_log(rt, run.log())?;
    let rounds = run.rounds();
    let done = run.done();
    eprintln!(rt; "{passes} passes (quiet: {quiet}), {rounds} rounds, done: {done}")?;
    let same = same_history(&run, &other, 0) && same_history(&run, &other, 1);
    eprintln!(rt; "stepped backwards over other links, the histories are the same: {same}")?;
    Ok(())
}

// Fills a link with a quota of 3 until it refuses, and tells the refusal by its numbers.
fn filled<S: Links<Vehicle> + Drop>(
    rt: &HostRuntime,
    store: S,
    cargo: Vehicle,
) -> anyhow::Result<()> {
    let mut links = Quota::new(store);
    links
        .set(0, 3)
        .map_err(|_| anyhow!("the quota is not set"))?;
    let (time, fault) = (0..10u32)
        .find_map(|time| Some((time, links.put(0, time, cargo).err()?)))
        .context("the link never refused")?;
    let numbers = fault.numbers(rt.alloc())?;
    eprintln!(rt; "a link with a quota of 3 took {time} events and then refused with {numbers:?}")?;
    Ok(())
}

fn worked_plan(rt: &HostRuntime) -> anyhow::Result<()> {
    let heap = rt.alloc();
    let cargo = Vehicle::new(0, 0).context("a vehicle is outside its limits")?;
    let mut first = slots::blank(heap, 32, cargo)?;
    let mut second = slots::blank(heap, 8, cargo)?;
    let mut third = slots::blank(heap, 8, cargo)?;
    filled(rt, Ring::new(third.as_mut_slice(), worked::LINKS), cargo)?;
    compared(
        rt,
        Ring::new(first.as_mut_slice(), worked::LINKS),
        Ring::new(second.as_mut_slice(), worked::LINKS),
    )
}

fn main(rt: HostRuntime) -> anyhow::Result<()> {
    worked_plan(&rt)
}
