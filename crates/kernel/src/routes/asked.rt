ghost use Rattle.std.specs.Prelude.{◌≡◌, ◌<◌, ◌≤◌, length};
ghost use Rattle.model.specs.Shape.{in_links, out_links};
ghost use Rattle.model.specs.Made.{shape_of};
ghost use Rattle.kernel.specs.Places.{Below, Rising};

use super::Routes;
use model::plan::Plan;

impl Routes {
    pub(crate) fn plan(&self) -> &Plan
        ensures { result.now ≡ self.now.plan }
    {
        &self.plan
    }

    // The horizon, with its limit, so that sums with it fit.
    pub(crate) fn horizon(&self) -> u32
        ensures is { result ≡ self.now.plan.horizon }
        ensures near { result ≤ 1000000 }
    {
        self.plan.horizon()
    }

    // The plan back.
    pub(crate) fn into_plan(self) -> Plan
        ensures { result ≡ self.plan }
    {
        self.plan
    }

    // The in-links of a process.
    pub(crate) fn ins(&self, process: usize) -> &[usize]
        requires { process < (shape_of self.now.plan).processes }
        ensures value { result.now ≡ in_links (shape_of self.now.plan) process }
        ensures below { Below (length (shape_of self.now.plan).links) result.now }
        ensures rising { Rising result.now }
    {
        self.ports[process].ins.as_slice()
    }

    // The out-links of a process.
    pub(crate) fn outs(&self, process: usize) -> &[usize]
        requires { process < (shape_of self.now.plan).processes }
        ensures value { result.now ≡ out_links (shape_of self.now.plan) process }
        ensures below { Below (length (shape_of self.now.plan).links) result.now }
        ensures few { length result.now ≤ 128 }
    {
        self.ports[process].outs.as_slice()
    }
}
