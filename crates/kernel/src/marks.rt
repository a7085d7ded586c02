//! Who has stepped since the round began, and how many rounds are over.
ghost use Rattle.std.specs.Prelude.{◌≡◌, ℕ, ◌+◌, ◌^◌, ◌<◌, ◌≤◌, min, true, false, if◌then◌else◌};
ghost use Rattle.model.specs.Lists.{update, each};
ghost use Rattle.kernel.specs.Bits.{bit};

// The bit of a process is set once it has stepped in this round.
#[derive(Clone, Copy)]
pub(crate) struct Marks {
    word: u64,
    processes: usize,
    rounds: u32,
    ghost few: { processes ≤ 64 },
    ghost within: { word < 2 ^ processes },
}

impl Marks {
    // No process is marked, and no round is over.
    pub(crate) fn new(processes: usize) -> Marks
        requires { processes ≤ 64 }
        ensures marked { (q : ℕ) → bit result.word q ≡ false }
        ensures rounds { result.rounds ≡ 0 }
        ensures processes { result.processes ≡ processes }
    {
        Marks {
            word: 0,
            processes,
            rounds: 0,
        }
    }

    pub(crate) fn rounds(&self) -> u32
        ensures { result ≡ self.now.rounds }
    {
        self.rounds
    }

    // Marks a process. The last one of a round ends it: the count rises, and the marks are cleared.
    pub(crate) fn mark(&mut self, process: usize)
        requires { process < self.old.processes }
        ensures marked { (q : ℕ) → bit self.new.word q ≡ (if each self.old.processes (update (bit self.old.word) process true) then false else update (bit self.old.word) process true q) }
        ensures rounds { self.new.rounds ≡ (if each self.old.processes (update (bit self.old.word) process true) then min (self.old.rounds + 1) 4294967295 else self.old.rounds) }
        ensures processes { self.new.processes ≡ self.old.processes }
    {
        let word = self.word | (1 << process);
        if word.count_ones() as usize == self.processes {
            self.word = 0;
            self.rounds = self.rounds.saturating_add(1);
        } else {
            self.word = word;
        }
    }
}
