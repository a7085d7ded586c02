//! How a signal is made, and what it is made of.
ghost use Rattle.std.specs.Prelude.{◌≡◌};
ghost use Rattle.road.specs.Signals.{signal_of};
ghost use Rattle.road.specs.Limits.{signal_within};

use super::Signal;
use super::settings::Settings;
use exit::limits::between;

impl Settings {
    // Whether a signal can be set so.
    pub fn within_limits(&self) -> bool
        ensures { result ≡ signal_within self.now }
    {
        between(1, 10_000, self.lookahead)
            && between(1, 10_000, self.cycle)
            && between(1, self.cycle, self.green)
            && self.offset < self.cycle
            && between(1, 10_000, self.headway)
            && between(1, 10_000, self.crossing)
    }
}

impl Signal {
    // A signal that is free from the start, if the settings are within the limits.
    pub fn new(settings: Settings) -> Option<Signal>
        ensures { result ≡ signal_of settings }
    {
        if settings.within_limits() {
            Some(Signal { settings, free: 0 })
        } else {
            None
        }
    }

    pub fn settings(&self) -> Settings
        ensures { result ≡ self.now.settings }
    {
        self.settings
    }

    // The time from which the next vehicle can start.
    pub fn free(&self) -> u32
        ensures { result ≡ self.now.free }
    {
        self.free
    }
}
