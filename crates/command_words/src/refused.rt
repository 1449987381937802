//! Why words are refused.
use thiserror::Error;

/// Why words ask for nothing.
#[derive(Clone, Copy, Debug, PartialEq, Eq, Error)]
pub enum WordsRefused {
    /// They are not legal.
    #[error("usage")]
    Usage,
    /// Their scheduler text isn't legal, from this place on.
    #[error("vdev at {at}")]
    Vdev { at: usize },
    #[error("out of memory")]
    OutOfMemory,
}
