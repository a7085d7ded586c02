// What a test was to be given, and was not.
#[derive(Clone, Copy, Debug)]
pub enum Missing {
    WithinLimits,
    Sent,
}
