// What the log keeps of an event that was taken: by which process, from which link, its arrival, and its cargo's code.
#[derive(Clone, Copy, PartialEq, Eq, Debug)]
pub struct Record {
    pub process: usize,
    pub link: usize,
    pub time: u32,
    pub code: u32,
}
