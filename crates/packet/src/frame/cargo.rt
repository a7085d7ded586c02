//! The number that stands for a frame in a log.
ghost use Rattle.exit.proofs.Made.{parts_of_code};
ghost use Rattle.packet.specs.Frames.{frame_code};
ghost use Rattle.packet.specs.SameFrame.{same_frame};
ghost use Rattle.std.proofs.Common.{rules, arith};

use super::Frame;
use model::cargo::Cargo;

impl Cargo for Frame {
    ghost code = { frame_code };

    ghost small = { Prim.search rules };

    ghost distinct = { λ x y e.
        let parts = parts_of_code x.destination x.length y.destination y.length (Prim.search rules) (Prim.search rules) e in
        same_frame x y parts.0 parts.1 };

    fn code(&self) -> u32 {
        self.destination * 65_536 + self.length
    }
}
