//! One step of a process.
ghost use Rattle.std.specs.Prelude.{◌≡◌, ◌<◌, ◌≤◌, Some};
ghost use Rattle.model.specs.Lists.{at};
ghost use Rattle.model.specs.Made.{shape_of};
ghost use Rattle.model.specs.Shape.{in_links, out_links};
ghost use Rattle.simulation.specs.View.{has};
ghost use Rattle.simulation.specs.Step.{Closes, Step};
ghost use Rattle.simulation.specs.Programs.{program_of};
ghost use Rattle.kernel.specs.OfRun.{view_of};
ghost use Rattle.kernel.specs.Places.{Rising};
ghost use Rattle.kernel.specs.Stages.{Taking, Finds};

use super::Run;
use crate::nulls::send_nulls;
use crate::ports::Ports;
use crate::safety::Safe;
use crate::sending::pass_on;
use model::answer::Stepped;
use model::cargo::Cargo;
use model::links::Links;
use model::process::Process;
use model::record::Record;
use model::refusal::Refusal;

impl<C: Cargo, P: Process<C>, L: Links<C>> Run<C, P, L> {
    // Whether there is such a process.
    pub(super) fn has(&self, process: usize) -> bool
        ensures { result ≡ has (view_of self.now) process }
    {
        process < self.routes.plan().processes()
    }

    // The in-ports of a process.
    pub(super) fn ins(&self, process: usize) -> Ports<'_, C, L>
        requires { process < self.now.routes.plan.processes }
        ensures links { result.links.now ≡ self.now.links }
        ensures list { result.list.now ≡ in_links (shape_of self.now.routes.plan) process }
        ensures rising { Rising result.list.now }
    {
        Ports::new(&self.links, self.routes.ins(process))
    }

    // The out-ports of a process.
    fn outs(&self, process: usize) -> Ports<'_, C, L>
        requires { process < self.now.routes.plan.processes }
        ensures links { result.links.now ≡ self.now.links }
        ensures list { result.list.now ≡ out_links (shape_of self.now.routes.plan) process }
    {
        Ports::new(&self.links, self.routes.outs(process))
    }

    // The safe event of a process.
    fn safe(&self, process: usize) -> Option<Safe<C>>
        requires { process < self.now.routes.plan.processes }
        ensures { Finds (shape_of self.now.routes.plan) (L.Links.meaning self.now.links) process result }
    {
        self.ins(process).safe_event(self.routes.horizon())
    }

    // Takes the safe event, unless an out-link or the log is full, or the sending is a breach.
    fn take(&mut self, process: usize, state: P, safe: Safe<C>) -> Result<(), Refusal>
        requires process { process < self.old.routes.plan.processes }
        requires state { at self.old.processes.items process ≡ Some state }
        requires safe { Finds (shape_of self.old.routes.plan) (L.Links.meaning self.old.links) process (Some safe) }
        ensures { Taking (program_of C.Cargo P.Process) (view_of self.old) process state safe result (view_of self.new) }
    {
        let outs = self.outs(process);
        if let Some(link) = outs.lowest_full() {
            return Err(Refusal::Held(link));
        }
        if self.log.len() >= self.room {
            return Err(Refusal::LogFull);
        }
        let Safe { port, link, event } = safe;
        let mut next = state;
        let earliest = event.time + state.lookahead();
        let sending = next.handle(port, event.time, event.cargo);
        let going = outs
            .judge(process, earliest, sending)
            .map_err(Refusal::Breached)?;
        pass_on(&mut self.links, link, event, going);
        self.processes[process] = next;
        self.log.push_reserved(Record {
            process,
            link,
            time: event.time,
            code: event.cargo.code(),
        });
        Ok(())
    }

    // Ends a step: nulls by the clock as it is now, and the mark.
    fn close(&mut self, process: usize, lookahead: u32) -> u32
        requires process { process < self.old.routes.plan.processes }
        requires near { lookahead ≤ 10000 }
        ensures closes { Closes (view_of self.old) process lookahead (L.Links.meaning self.old.links) result (view_of self.new) }
        ensures processes { self.new.processes.items ≡ self.old.processes.items }
        ensures log { self.new.log.items ≡ self.old.log.items }
    {
        let horizon = self.routes.horizon();
        let clock = self.ins(process).clock(horizon);
        let nulls = send_nulls(
            &mut self.links,
            self.routes.outs(process),
            clock + lookahead,
        );
        self.marks.mark(process);
        nulls
    }

    // The stages of a step, in their order.
    pub(super) fn once(&mut self, process: usize) -> Result<Stepped<C>, Refusal>
        ensures { Step (program_of C.Cargo P.Process) (view_of self.old) process result (view_of self.new) }
    {
        if !self.has(process) {
            return Err(Refusal::NoSuch);
        }
        let state = self.processes[process];
        let lookahead = state.lookahead();
        let safe = self.safe(process);
        let taken = safe.map(|safe| safe.event);
        if let Some(safe) = safe {
            self.take(process, state, safe)?;
        }
        let nulls = self.close(process, lookahead);
        Ok(Stepped { taken, nulls })
    }
}
