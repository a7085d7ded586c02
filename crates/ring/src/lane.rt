// Where one link's events lie in its part of the slots, and its floor.
#[derive(Clone, Copy, Default)]
pub struct Lane {
    // The place of the oldest event in the part.
    pub head: u32,
    // How many events wait.
    pub len: u32,
    pub floor: u32,
}
