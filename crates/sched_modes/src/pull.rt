//! What a pull gives.

/// Why a pull ended.
#[derive(Clone, Copy, Debug, PartialEq, Eq)]
pub enum Stop {
    /// All that was asked for came.
    Max,
    /// Nothing is pending any more.
    Empty,
    /// So many operations are still in devices, or the last value of a `usize` where they are more.
    NotYet(usize),
}

/// How many operations came, and why no more did.
#[derive(Clone, Copy, Debug, PartialEq, Eq)]
pub struct Got {
    pub n: usize,
    pub stop: Stop,
}
