//! The limits of a setting.
ghost use Rattle.std.specs.Prelude.{◌≡◌};
ghost use Rattle.exit.specs.Limits.{between};

// Whether a setting is from low to high.
pub fn between(low: u32, high: u32, n: u32) -> bool
    ensures { result ≡ between low high n }
{
    (low..=high).contains(&n)
}
