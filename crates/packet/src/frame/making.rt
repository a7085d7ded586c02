//! How a frame is made, and what it is made of.
ghost use Rattle.std.specs.Prelude.{◌≡◌};
ghost use Rattle.packet.specs.Frames.{frame_of};

use super::Frame;
use exit::limits::between;

impl Frame {
    // A frame, if destination and length are within the limits.
    pub fn new(destination: u32, length: u32) -> Option<Frame>
        ensures { result ≡ frame_of destination length }
    {
        if between(0, 255, destination) && between(1, 9_000, length) {
            Some(Frame {
                destination,
                length,
            })
        } else {
            None
        }
    }

    pub fn destination(&self) -> u32
        ensures { result ≡ self.now.destination }
    {
        self.destination
    }

    pub fn length(&self) -> u32
        ensures { result ≡ self.now.length }
    {
        self.length
    }
}
