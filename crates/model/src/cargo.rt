//! What events carry.
ghost use Rattle.std.specs.Prelude.{◌≡◌, ℕ, ◌^◌, ◌<◌};

// A kind of cargo: copied freely, and known in a log by a number.
pub trait Cargo: Copy {
    // The number that stands for a value in a log.
    ghost code: { Self → ℕ };

    fn code(&self) -> u32
        ensures { result ≡ code self.now };

    ghost small: { (x : Self) → code x < 2 ^ 32 };

    ghost distinct: { (x y : Self) → code x ≡ code y → x ≡ y };
}
