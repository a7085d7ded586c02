//! The links of a plan.
ghost use Rattle.std.specs.Prelude.{◌≡◌, ℕ, ◌+◌};

// A link of a plan: from a process or, with none, from outside; to a process; with a delay.
#[derive(Clone, Copy, PartialEq, Eq, Debug)]
pub struct Link {
    pub from: Option<usize>,
    pub to: usize,
    pub delay: u32,
}

impl Link {
    // How long after an event its source's sending arrives at the earliest.
    pub fn reach(&self, lookahead: u32) -> u64
        ensures { result ≡ lookahead + self.now.delay }
    {
        u64::from(lookahead) + u64::from(self.delay)
    }
}
