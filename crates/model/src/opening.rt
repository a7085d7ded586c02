// An event that a run begins with: put at this time on a link from outside.
#[derive(Clone, Copy)]
pub struct Opening<C> {
    pub link: usize,
    pub time: u32,
    pub cargo: C,
}
