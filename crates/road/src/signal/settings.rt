// What a signal is set to: the lookahead that it promises, its cycle of lights, the green at the start of each cycle,
// how far the cycle is ahead at time 0, and from one start to the next start and to the sending.
#[derive(Clone, Copy, PartialEq, Eq, Debug)]
pub struct Settings {
    pub lookahead: u32,
    pub cycle: u32,
    pub green: u32,
    pub offset: u32,
    pub headway: u32,
    pub crossing: u32,
}
