//! What handles events.
ghost use Rattle.std.specs.Prelude.{◌≡◌, ℕ, ◌≤◌, Option};
ghost use Rattle.model.specs.declared.sending.Sending.{Sending};

use crate::cargo::Cargo;
use crate::sending::Sending;

// A kind of process: copied freely. A value is a state; the rule belongs to the kind, and no event changes the lookahead.
pub trait Process<C: Cargo>: Copy {
    // It promises to send nothing sooner than this after an event.
    ghost lookahead: { Self → ℕ };

    // From state, in-port, time and cargo: the next state, and a sending or none.
    ghost rule: { Self → ℕ → ℕ → C → Self × Option (Sending C) };

    fn lookahead(&self) -> u32
        ensures { result ≡ lookahead self.now };

    fn handle(&mut self, port: usize, time: u32, cargo: C) -> Option<Sending<C>>
        ensures { ◌≡◌ {A = Self × Option (Sending C)} (self.new, result) (rule self.old port time cargo) };

    ghost within: { (s : Self) → (1 ≤ lookahead s) × (lookahead s ≤ 10000) };

    ghost constant: { (s : Self) (port time : ℕ) (cargo : C) → lookahead (rule s port time cargo).0 ≡ lookahead s };
}
