//! A junction with a signal.
ghost use Rattle.std.specs.Prelude.{◌≡◌, true};
ghost use Rattle.road.specs.Limits.{signal_within};

use crate::signal::settings::Settings;

pub mod making;
pub mod process;
pub mod settings;

// A signal: its settings, and the time from which it is free. No signal outside the limits exists.
#[derive(Clone, Copy, PartialEq, Eq, Debug)]
pub struct Signal {
    settings: Settings,
    free: u32,
    ghost limits: { signal_within settings ≡ true },
}
