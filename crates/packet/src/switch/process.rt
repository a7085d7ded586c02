//! What a switch does.
ghost use Rattle.std.specs.Prelude.{◌≡◌};
ghost use Rattle.packet.specs.Switches.{switch_lookahead, switch_rule, served_at};
ghost use Rattle.std.proofs.Common.{rules, arith};

use super::Switch;
use crate::frame::Frame;
use model::process::Process;
use model::sending::Sending;

impl Switch {
    // When a frame that comes at this time is served.
    fn end(&self, time: u32, frame: Frame) -> u32
        ensures { result ≡ served_at self.now time frame }
    {
        let begin = time.max(self.free);
        begin
            .saturating_add(self.service)
            .saturating_add(frame.line_time())
    }
}

impl Process<Frame> for Switch {
    ghost lookahead = { switch_lookahead };

    ghost rule = { switch_rule };

    ghost within = { Prim.search rules };

    ghost constant = { Prim.search rules };

    fn lookahead(&self) -> u32 {
        self.lookahead
    }

    fn handle(&mut self, _port: usize, time: u32, frame: Frame) -> Option<Sending<Frame>> {
        let end = self.end(time, frame);
        self.free = end;
        Some(Sending {
            port: frame.port(),
            time: end,
            cargo: frame,
        })
    }
}
