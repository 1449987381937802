//! Why an adapter refuses.
use thiserror::Error;

/// Why a queue pair was not added. The device is handed back.
#[derive(Debug, Drop)]
pub enum AddQpRefused<D> {
    /// A queue pair has this id.
    AlreadyAdded(D),
    /// Eight queue pairs are there.
    TooManyPairs(D),
}

/// Why a queue pair was not taken away.
#[derive(Clone, Copy, Debug, PartialEq, Eq, Error)]
pub enum DelRefused {
    #[error("no queue pair has this id")]
    Unknown,
    #[error("{0} of its events are inside")]
    Pending(usize),
}

/// No queue pair has this id.
#[derive(Clone, Copy, Debug, PartialEq, Eq, Error)]
#[error("no queue pair has this id")]
pub struct Unknown;
