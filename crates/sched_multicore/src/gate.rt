//! What a worker passes before it finishes an operation.

/// A gate may hold a worker up. It says nothing of the operation.
pub trait Gate {
    /// Called with the worker's number and the operation's, before each operation is finished.
    fn pass(&self, worker: usize, number: u64);
}

/// A gate that holds nothing up.
pub struct OpenGate;

impl Gate for OpenGate {
    fn pass(&self, _worker: usize, _number: u64) {}
}
