//! How a switch sends a frame.
ghost use Rattle.std.specs.Prelude.{◌≡◌};
ghost use Rattle.packet.specs.Serving.{line_time, port_of};

use super::Frame;

impl Frame {
    // What its length adds to the service: one for each whole cell of 64 bytes.
    pub fn line_time(&self) -> u32
        ensures { result ≡ line_time self.now.length }
    {
        self.length / 64
    }

    // The out-port to its destination.
    pub fn port(&self) -> usize
        ensures { result ≡ port_of self.now.destination }
    {
        (self.destination % 8) as usize
    }
}
