//! A cargo to try the links with.
ghost use Rattle.std.specs.Prelude.{◌≡◌, ◌^◌, ◌<◌};
ghost use Rattle.std.proofs.Common.{rules, arith};

use model::cargo::Cargo;

#[derive(Clone, Copy)]
pub struct Parcel {
    number: u32,
    ghost fits: { number < 2 ^ 32 },
}

impl Parcel {
    pub fn new(number: u32) -> Self
        ensures { result.number ≡ number }
    {
        Parcel { number }
    }
}

impl Cargo for Parcel {
    ghost code = { λ x. x.number };

    ghost small = { Prim.search rules };

    ghost distinct = { Prim.grind (arith, Self.row.coded.inj) };

    fn code(&self) -> u32 {
        self.number
    }
}
