//! The questions of a run. None changes anything.
ghost use Rattle.std.specs.Prelude.{◌≡◌, ◌<◌, ◌≤◌, length, nat_eq};
ghost use Rattle.model.specs.Lists.{at, each};
ghost use Rattle.model.specs.Made.{shape_of};
ghost use Rattle.simulation.specs.View.{clock, history};
ghost use Rattle.simulation.specs.Calls.{Call, found};
ghost use Rattle.simulation.specs.Programs.{program_of};
ghost use Rattle.kernel.specs.OfRun.{view_of, Called};

use super::Run;
use model::cargo::Cargo;
use model::links::Links;
use model::process::Process;
use model::record::Record;
use model::refusal::Refusal;

impl<C: Cargo, P: Process<C>, L: Links<C>> Run<C, P, L> {
    fn clock_now(&self, process: usize) -> u32
        requires { process < self.now.routes.plan.processes }
        ensures { result ≡ clock (shape_of self.now.routes.plan) (L.Links.meaning self.now.links) process }
    {
        self.ins(process).clock(self.routes.horizon())
    }

    // The clock of a process: nothing that it will take arrives before.
    pub fn clock(&self, process: usize) -> Result<u32, Refusal>
        ensures { Called (program_of C.Cargo P.Process) (Call.ask_clock process) (view_of self.now) result (view_of self.now) }
    {
        if !self.has(process) {
            return Err(Refusal::NoSuch);
        }
        Ok(self.clock_now(process))
    }

    // How many records of the log are a process's.
    fn taken_by(&self, process: usize) -> usize
        ensures { result ≡ length (history process self.now.log.items) }
    {
        self.log
            .iter()
            .filter(|record| record.process == process)
            .count()
    }

    // How many events a process has taken.
    pub fn count(&self, process: usize) -> Result<usize, Refusal>
        ensures { Called (program_of C.Cargo P.Process) (Call.ask_count process) (view_of self.now) result (view_of self.now) }
    {
        if !self.has(process) {
            return Err(Refusal::NoSuch);
        }
        Ok(self.taken_by(process))
    }

    // The record of the log at a place of a process's history.
    fn record_of(&self, process: usize, place: usize) -> Result<Record, Refusal>
        ensures { result ≡ found (at (history process self.now.log.items) place) }
    {
        self.log
            .iter()
            .filter(|record| record.process == process)
            .nth(place)
            .copied()
            .ok_or(Refusal::NoSuch)
    }

    // The record at a place of a process's history, counted from 0.
    pub fn record(&self, process: usize, place: usize) -> Result<Record, Refusal>
        ensures { Called (program_of C.Cargo P.Process) (Call.ask_record process place) (view_of self.now) result (view_of self.now) }
    {
        if !self.has(process) {
            return Err(Refusal::NoSuch);
        }
        self.record_of(process, place)
    }

    // The whole log, oldest first: every history in one reading.
    pub fn log(&self) -> &[Record]
        ensures { result.now ≡ (view_of self.now).log }
    {
        self.log.as_slice()
    }

    // How many rounds are over.
    pub fn rounds(&self) -> u32
        ensures { Called (program_of C.Cargo P.Process) Call.ask_rounds (view_of self.now) result (view_of self.now) }
    {
        self.marks.rounds()
    }

    // Whether the clocks of the first so many processes are at the horizon.
    fn all_ended(&self, processes: usize) -> bool
        requires { processes ≤ self.now.routes.plan.processes }
        ensures { result ≡ each processes (λ p. nat_eq (clock (shape_of self.now.routes.plan) (L.Links.meaning self.now.links) p) self.now.routes.plan.horizon) }
    {
        let horizon = self.routes.horizon();
        (0..processes).all(|process| self.clock_now(process) == horizon)
    }

    // Whether the run is finished: every clock is at the horizon.
    pub fn done(&self) -> bool
        ensures { Called (program_of C.Cargo P.Process) Call.ask_done (view_of self.now) result (view_of self.now) }
    {
        self.all_ended(self.routes.plan().processes())
    }
}
